//! The control folder of a task: its files, whose it is, whether its task was started, and whether it can still be running.
//!
//! docs/HOSTS.md tells the files one by one, and argues why no task is started twice and why no stop of the controller
//! costs a step. What is decided from what was found in a folder is proved; that a real folder has what was found in it is
//! tested.
#![tactic(auto)]

mod control;
mod elsewhere;
mod facts;
mod fate;
mod machine;
mod making;
mod process;
mod shell;
mod task_files;

pub use control::{ControlFolder, Entry, Found, text};
pub use elsewhere::task_script;
pub use facts::{Facts, Mark, Verdict};
pub use fate::{Fate, fate_of};
pub use machine::{Boot, Machine};
pub use making::{Making, discard, make, may_run, remove, withdraw};
pub use process::Process;
pub use shell::{Place, shell_text};
pub use task_files::{read, state};

#[cfg(test)]
mod tests;
