//! The payloads of a journal whose records hold whole images or changes alone, as bytes and back.
//!
//! A payload begins with a byte that tells its kind: `01`, an event and the image of the build after it, or `02`, an
//! event and what it changed of the build. [`read_payload`] gives the payload that some bytes spell, all of them, or
//! the first place at which their form breaks; [`write_payload`] gives the spelling, and [`payload_size`] its length
//! without memory. [`next_image`] makes the image of a payload on that of the payload before. [`Weights`] are the two
//! numbers by which a journal tells which kind is due; it counts them itself. `docs/FORMATS.md` has the form byte by
//! byte, and `specs/` has all of this as definitions.
//!
//! ```text
//! let payload = read_payload(alloc, bytes)?;
//! let image = next_image(alloc, before, payload)?; // the image of the build after its event
//! ```
#![tactic(auto)]

mod image;
mod payload;
mod weights;

pub use delta_form;
pub use delta_form::DeltaRefusal;
pub use field_form::FormRefusal;
pub use image::next_image;
pub use payload::{Payload, payload_size, read_payload, write_payload};
pub use record_form;
pub use weights::Weights;
