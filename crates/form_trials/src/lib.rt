//! Trials of what an image of a build is made of: tests alone, a module for each crate, by what the crate hands out.
//!
//! They stand above those crates, so that a crate is proved once and not once more with its tests.
#![tactic(auto)]

#[cfg(test)]
mod checks; // image_check
#[cfg(test)]
mod codes; // cps_code
#[cfg(test)]
mod deltas; // delta_form
#[cfg(test)]
mod fields; // field_form
#[cfg(test)]
mod frames; // image_frames
#[cfg(test)]
mod images; // image_form
#[cfg(test)]
mod names; // script_names
#[cfg(test)]
mod payloads; // delta_records
#[cfg(test)]
mod records; // record_form
#[cfg(test)]
mod rows; // frame_rows
