//! The image after the changes.

ghost use Rattle.delta_form.specs.Applying.{Applies};
ghost use Rattle.delta_form.specs.After.{IsInOrder, after, with_changes};

use crate::merge::changed;
use crate::order::is_in_order;
use crate::put::{appended, put_all};
use crate::renewed::renewed;
use crate::{Delta, DeltaRefusal};
use image_form::Image;
use std::alloc::Global;

/// The image after these changes. `Memory` where there is none, and `Fault` exactly where they do not fit the image:
///
/// - names or numbers of a list of the delta do not rise;
/// - a variable with the name of a new one stood before;
/// - a cell lies behind a gap, or a flow node would get the number 4,294,967,296;
/// - a request is both closed and written, or a thread both ended and written;
/// - a number that is to stand does not, or what grew is no task, no list or no map;
/// - a map that grew has one of the keys already;
/// - a thread keeps more frames than it had.
pub fn apply(alloc: Global, image: Image, delta: Delta) -> Result<Image, DeltaRefusal>
    ensures { Applies result (after image delta) }
{
    if is_in_order(&delta) {
        with_changes(alloc, image, delta)
    } else {
        Err(DeltaRefusal::Fault)
    }
}

fn with_changes(alloc: Global, image: Image, delta: Delta) -> Result<Image, DeltaRefusal>
    requires { IsInOrder delta }
    ensures { Applies result (with_changes image delta) }
{
    let bindings = changed(alloc, image.bindings, delta.bindings)?;
    let cells = put_all(image.cells, delta.cells)?;
    let nodes = put_all(image.nodes, delta.nodes)?;
    let log = appended(image.log, delta.log)?;
    let requests = renewed(alloc, image.requests, delta.closed_requests, delta.requests)?;
    let threads = renewed(alloc, image.threads, delta.ended_threads, delta.threads)?;
    Ok(Image {
        next_request: delta.next_request,
        next_thread: delta.next_thread,
        result: delta.result,
        ended: delta.ended,
        bindings,
        cells,
        nodes,
        log,
        requests,
        held: delta.held,
        threads,
    })
}
