//! Laws of evaluation and of worlds that the interpreter, the check of images and the build stand on: an evaluation that begins
//! in a sound state goes to a later sound state, ends with what is there, and waits inside frames that fit; so do frames that fit
//! and go on; and so each thread of every world stands.
//!
//! The crate has no code. `specs/` says what is proved, `proofs/` proves it over the definitions of `model_run`: a law for each form, call
//! and step (`SoundStatements` .. `SoundBodies`) and for each kind of frame (`SoundFrames`), joined in `Evaluation`, `Resumption`,
//! `SoundThreads`, `SoundSeats` and `SoundWorlds`.
#![tactic(auto)]
