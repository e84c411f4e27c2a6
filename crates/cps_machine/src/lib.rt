//! The machine of one green thread: it makes moves until the thread waits, ends or meets a limit.
//!
//! [`MachineThread`] runs a script, or a branch of a `parallel`, as one of the threads of a build: it meets the trait of
//! `green_threads`. Each of its turns is proved to be the one of the definitions (`specs/Resuming`).
#![tactic(auto)]

mod kinds;
mod machine;
mod parts;
mod saving;
mod thread;

pub use machine::{Stopped, run};
pub use thread::{MachineThread, Start};
