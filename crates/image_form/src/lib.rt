//! The image of a build: all of what a build is between two events, as bytes and back.
//!
//! An image has one spelling. [`read_image`] gives the image that some bytes spell, all of them, or the first place
//! at which their form breaks; [`write_image`] gives the spelling. `docs/FORMATS.md` has the form byte by byte, and
//! `specs/Images` has it as definitions. Whether an image can be that of a build of a script, and not only of this
//! form, is another question, which no call of this crate answers.
//!
//! ```text
//! let bytes = write_image(alloc, &image)?;
//! let again = read_image(alloc, bytes.as_slice())?; // equals `image`
//! ```
#![tactic(auto)]

mod image;
mod threads;
mod wholes;

pub use field_form::FormRefusal;
pub use image::{Image, ImageFrame, ImageThread, ImageThreads};
pub use threads::ByThread;
pub use wholes::{ByName, read_image, write_image};
