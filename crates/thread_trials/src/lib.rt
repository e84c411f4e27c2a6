//! Trials of the threads of a build and of what they share: tests alone, by what the crates of both hand out.
//!
//! They stand above those crates, so that a crate is proved once and not once more with its tests.
#![tactic(auto)]

#[cfg(test)]
mod frames; // cps_frames
#[cfg(test)]
mod groups; // green_threads
#[cfg(test)]
mod requests; // build_requests
#[cfg(test)]
mod scripted; // a thread for the trials of groups
#[cfg(test)]
mod variables; // cps_variables
