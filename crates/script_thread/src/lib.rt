//! The thread of a build: a green thread that runs a script.
//!
//! A build (`build_core`) has threads of any kind that meets [`ScriptThread`]: a `Runner` of `green_threads` whose turns are
//! those of the definitions. `specs/Events` says what an event changes of what the threads of a build share, and which of
//! them it answers; a kind of thread says what that leaves of the fit of its threads.
#![tactic(auto)]

mod thread;

pub use thread::ScriptThread;
