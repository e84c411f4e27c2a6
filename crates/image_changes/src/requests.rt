//! Open requests that were changed: one that stood differs at most in what was taken of a task, and in what came to its
//! output.

ghost use Rattle.std.specs.Prelude.{◌≡◌, IfOk};
ghost use Rattle.model_run.specs.Requests.{IsSame, SameRequest};
ghost use Rattle.delta_form.specs.After.{written_request};
ghost use Rattle.delta_form.specs.Numbers.{written_number};
ghost use Rattle.image_changes.specs.Growing.{TaskGrows};
ghost use Rattle.image_changes.specs.Least.{IsShort};
ghost use Rattle.image_changes.specs.Walks.{Writes};

use crate::lists::added_bytes;
use delta_form::WrittenRequest;
use model_run::{OpenRequest, Request};
use model_text::Bytes;
use std::alloc::{AllocError, Global};

/// The same request once more.
pub(crate) fn copied_request(item: &OpenRequest) -> Result<OpenRequest, AllocError>
    ensures { IfOk result (λ copy. copy ≡ item.now) }
{
    let copy = item.clone()?;
    Ok(copy)
}

/// How a request that stood is written short, or nothing where it stands as it stood.
pub(crate) fn written_short(
    alloc: Global,
    stood: &OpenRequest,
    item: &OpenRequest,
) -> Result<Option<WrittenRequest>, AllocError>
    requires { IsSame stood.now item.now }
    ensures { IfOk result (Writes (λ r. r.number) written_number written_request IsShort stood.now item.now) }
{
    match grown(alloc, &stood.request, &item.request)? {
        Some(Growth { taken, out }) => Ok(Some(WrittenRequest::Grown {
            number: item.number,
            taken,
            out,
        })),
        None => Ok(None),
    }
}

/// What was taken of a task now, and the bytes that came to its output.
#[derive(Drop)]
pub(crate) struct Growth {
    pub taken: u64,
    pub out: Bytes,
}

/// How a request that stood has grown to be this one; nothing where as much was taken of it and nothing came to its
/// output.
fn grown(alloc: Global, stood: &Request, item: &Request) -> Result<Option<Growth>, AllocError>
    requires { SameRequest stood.now item.now }
    ensures { IfOk result (TaskGrows stood.now item.now) }
{
    match (stood, item) {
        (
            Request::Task {
                taken: was,
                out: had,
                ..
            },
            Request::Task { taken, out, .. },
        ) => {
            if *taken == *was && out.len() == had.len() {
                return Ok(None);
            }
            Ok(Some(Growth {
                taken: *taken,
                out: added_bytes(alloc, had.as_slice(), out.as_slice())?,
            }))
        }
        _ => Ok(None),
    }
}
