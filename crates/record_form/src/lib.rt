//! The record of an event: an event that a build accepted, and the image of the build after it, as bytes and back.
//!
//! It is the payload of a record of a journal, and begins with a byte that tells its kind: `01`, an event and a whole
//! image. No other kind is read. A record has one spelling. [`read_record`] gives the record that some bytes spell,
//! all of them, or the first place at which their form breaks; [`write_record`] gives the spelling; [`record_size`]
//! tells its length without spelling it, and takes no memory. `docs/FORMATS.md` has the form byte by byte.
//!
//! ```text
//! let add = record_size(&event, &image);
//! let bytes = write_record(alloc, &event, &image)?; // `add` bytes
//! let again = read_record(alloc, bytes.as_slice())?; // equals `EventRecord { event, image }`
//! ```
#![tactic(auto, using(crate::proofs::Joined::two_parts))]

mod flow;
mod images;
mod lists;
mod measured;
mod record;
mod requests;
mod values;
mod waits;

pub use field_form::FormRefusal;
pub use lists::{Sizing, list_size};
pub use measured::Measured;
pub use record::{EventRecord, read_record, record_size, write_record};
