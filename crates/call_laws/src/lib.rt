//! Laws of calls that the check of images and the build stand on: in every world what a step or a walk calls is a
//! closure, and so is what the method `call` calls.
//!
//! The crate has no code. `specs/` says what stands inside what, `proofs/` proves it over the definitions of `model_run`:
//! for each node that calls (`Callers`), for a whole evaluation (`Evaluations`), for frames that go on (`Continuations`),
//! for a thread that an image holds (`CallSeats`), and for the threads of every world (`CallWorlds`).
#![tactic(auto)]
