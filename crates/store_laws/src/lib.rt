//! What the store of a build is, and laws of it: whether the records of a journal tell of one build from its `Start` on.
//!
//! The crate has no code. `specs/Store` says when a store is consistent: its first event is the `Start` of a script and an
//! agents file without a fault, each event was accepted by the build of those before it, each image is that of the build
//! after its event, and a grant was made where it was due and nowhere else. `proofs/` shows that a store tells one list of
//! records of one setting, and what one record more makes of it.
#![tactic(auto)]
