//! Whether a frame that an image holds is one of the table of frames: which kinds may stand at which nodes of a script and at
//! which of their parts, with which values and variables, and what may stand directly inside them.
//!
//! [`frame_fault`] tells the first that is wrong with a frame, and [`may_stand_at`] whether it may stand at a spot.
//!
//! ```
//! let names = given_names(alloc, &code)?;
//! let fault = frame_fault(&table, &cells, nodes, true, &frame);
//! ```
#![tactic(auto)]

mod fault;
mod frames;
mod spots;

pub use fault::FrameFault;
pub use frames::{Table, frame_fault};
pub use spots::{may_stand_at, spot_inside};
