//! One build: its threads and what they share, changed by events.
//!
//! A [`Build`] takes events and answers each. An accepted one answers a thread; the threads then go on, the lowest-numbered
//! ready one first, until each waits or the build is over. [`Build::take`] is proved to do what the definitions say
//! (`model_run`, `World`): whatever list of events a build of the definitions has taken that this build stands for, it
//! stands for that one with the event taken too (`specs/Builds`). So its log, flow graph, result, requests and held
//! executors are those of the definitions.
//!
//! The threads are of any kind that meets `ScriptThread` of `script_thread`: a `Runner` of `green_threads` whose turns are
//! those of the definitions.
//!
//! ```text
//! let mut build: Build<Thread> = Build::new(alloc, code, site)?;
//! build.take(&Event::Start { script, agents })?; // Accepted
//! build.take(&Event::Decided { request: 1, proceed: true, name })?;
//! println!(rt; "{}", build.result().name())?;
//! ```
#![tactic(auto)]

mod build;
mod ending;
mod events;
mod grants;
mod phase;
mod turns;

pub use build::Build;
pub use phase::Phase;
