//! Trials of a build: the build of the empty script, from before its beginning to behind its end.
//!
//! The tests have a crate of their own, so that their proof does not prove the build once more. Its thread runs the empty
//! script alone, and is proved to be a thread of a build.
#![tactic(auto)]

#[cfg(test)]
mod tests;
#[cfg(test)]
mod trial;
