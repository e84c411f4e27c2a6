//! Laws of scripts that the interpreter, the code of a script and the check of images stand on: every node of a script has the parts
//! that its form asks for.
//!
//! The crate has no code. `specs/` says what is proved, `proofs/` proves it over the definitions of `model_syntax` and `model_run`.
#![tactic(auto)]
