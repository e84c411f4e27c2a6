//! Laws of green threads that run scripts: where the threads of a group stand for the threads of a build of the definitions, all that
//! they do until none is ready is what the definitions say of that build.
//!
//! The crate has no code. It knows threads by their [`Stance`](../specs/Stances.antt) alone, so its laws hold of every kind of thread
//! whose turns meet `Rules`. `specs/` says what is proved, `proofs/` proves it.
#![tactic(auto)]
