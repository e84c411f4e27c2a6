//! Records of changes: what changed of a build from one image to the next, as bytes and back, and the next image.
//!
//! A delta has one spelling. [`read_delta`] gives the delta that some bytes spell, all of them, or the first place at
//! which their form breaks; [`write_delta`] gives the spelling. [`apply`] makes the image after the changes, or tells
//! that they do not fit the image. `docs/FORMATS.md` has the form byte by byte, `specs/Deltas` has it as definitions,
//! and `specs/After` has what the changes make.
//!
//! ```text
//! let bytes = write_delta(alloc, &delta)?;
//! let again = read_delta(alloc, bytes.as_slice())?; // equals `delta`
//! let next = apply(alloc, image, again)?; // the image after the changes
//! ```
#![tactic(auto)]

mod apart;
mod cells;
mod change;
mod delta;
mod image_after;
mod items;
mod merge;
mod numbered;
mod order;
mod put;
mod refusal;
mod renewed;
mod sizes;
mod wholes;

pub use delta::{
    Delta, NewNode, NewNodes, NumberedCell, NumberedCells, WrittenCell, WrittenRequest,
    WrittenRequests, WrittenThread, WrittenThreads,
};
pub use field_form::FormRefusal;
pub use image_after::apply;
pub use items::{ByCell, ByWrittenRequest, ByWrittenThread, Rising};
pub use refusal::DeltaRefusal;
pub use wholes::{read_delta, write_delta};
