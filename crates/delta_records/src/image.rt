//! The image of a payload.

ghost use Rattle.delta_form.specs.Applying.{Applies};
ghost use Rattle.delta_records.specs.Payloads.{next_image};

use crate::Payload;
use delta_form::{DeltaRefusal, apply};
use image_form::Image;
use std::alloc::Global;

/// The image of a payload, behind the image of the payload before, where there is one. `Fault` where it holds changes
/// and these do not fit the image before, or there is none; `Memory` where there is none.
pub fn next_image(
    alloc: Global,
    before: Option<Image>,
    payload: Payload,
) -> Result<Image, DeltaRefusal>
    ensures { Applies result (next_image before payload) }
{
    match payload {
        Payload::Whole { event: _, image } => Ok(image),
        Payload::Changed { event: _, delta } => match before {
            None => Err(DeltaRefusal::Fault),
            Some(image) => apply(alloc, image, delta),
        },
    }
}
