//! A thread of a build that an image keeps.
//!
//! [`SavedThread`] is a `ScriptThread` of which an image can be made, and which an image gives back. An image has of a thread
//! what `specs/Saving` says: its frames with the numbers of their kinds, and with the parts that are done in place of those
//! that still come. What an image does not have, how many calls are open, is counted off the frames.
//!
//! The trait stands in a crate of its own, so that a build (`build_core`) needs to know nothing of images.
#![tactic(auto)]

mod frames;
mod thread;

pub use cps_frames;
pub use frames::{frames_in, frames_told, open_calls};
pub use script_thread;
pub use thread::SavedThread;
