//! Which green threads may stand beside one another over what they share, and the laws of it: the thread of a script fits a build that
//! begins, and every event that ends no build keeps the fit.
//!
//! The crate has no code. It knows threads by their [`Stance`](../../settle_laws/specs/Stances.antt) alone, so its laws hold of every kind
//! of thread. `specs/Seats` says what is asked of threads, `proofs/` proves it kept; the machine's turns keep it too (`cps_machine`).
#![tactic(auto)]
