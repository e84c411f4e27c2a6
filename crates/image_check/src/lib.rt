//! Whether an image is that of a sound build of a script on a site between two events.
//!
//! [`check`] tells nothing exactly where it is (`Stands` in `specs/Standings`, which is `FitsAtRest` of `model_run`), and else
//! the first fault in the order of the image's parts (`first_fault` in `specs/Images`), with its kind and its place.
//!
//! ```
//! let image = read_image(alloc, bytes)?;
//! check(alloc, &image, &code, &site)?;
//! ```
#![tactic(auto)]

mod cells;
mod finding;
mod held;
mod image;
mod inside;
mod lookup;
mod requests;
mod scan;
mod shared;
mod sizes;
mod threads;

pub use finding::{CheckKind, Finding, ImageRefusal};
pub use image::check;
