//! Laws of worlds that the build, the check of images and the store stand on: in the world of every list of events no thread is
//! ready between two events, numbers of threads are bounded, and each thread holds the executors of its own `node` bodies.
//!
//! The crate has no code. `specs/` says what is proved, `proofs/` proves it over the definitions of `model_run`.
#![tactic(auto)]
