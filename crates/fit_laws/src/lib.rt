//! Laws of worlds that the check of images and the build stand on: the world of every list of events is sound
//! (`WorldsFit` of `model_run`).
//!
//! The crate has no code. `specs/` says what is proved, `proofs/` proves it: it joins what `run_laws` and `call_laws` prove
//! of each thread and of the shared state with what `world_laws` proves of threads and requests together, and `seat_laws`
//! of held executors.
#![tactic(auto)]
