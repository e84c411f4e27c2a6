//! The changes from an image to what stands in the build now.

ghost use Rattle.std.specs.Prelude.{IfOk};
ghost use Rattle.model_run.specs.Among.{AreAmong};
ghost use Rattle.model_run.specs.FlowNodes.{IsFront};
ghost use Rattle.model_run.specs.Requests.{RequestsStay};
ghost use Rattle.record_form.specs.Ordered.{IsInOrder};
ghost use Rattle.image_changes.specs.Least.{IsLeast};
ghost use Rattle.image_changes.specs.Parts.{LeadsTo};
ghost use Rattle.image_changes.specs.Seen.{KeepsThreads, KeepsUnmarked, image_seen};

use crate::lists::{added_bytes, changed_cells, new_bindings, new_nodes};
use crate::now::Now;
use crate::walk::renewal;
use delta_form::Delta;
use image_form::Image;
use model_run::HeldExecutors;
use std::alloc::{AllocError, Global};

/// What leads from the image before to the build now. `AllocError` where the memory was refused.
///
/// So much has to be known, as it is behind an event of which the image before is that in front of it, and is not
/// compared: each variable from before stands now, each cell that is not marked stands in the image before, the flow nodes
/// and the log before are the beginning of those now, an open request from before is the same but for what was taken of
/// its task and came to the output, a thread that took no turn is the same but for its parent and what it waits for, and
/// the frames in front of any other are those that it had.
///
/// So it takes the time of the marked cells, of the numbers of the open requests and of the threads, of what threads wait
/// for, of the contexts of those that took a turn and their frames that are not in front, and of what is new: variables,
/// flow nodes, requests, and bytes of the log and of outputs. Where a variable is new it goes over all of them.
///
/// The delta holds what changed alone, so there is one such delta: cells, requests and threads that did not change are
/// not listed, a thread keeps all its frames in front that are the same, and a task that has grown is written short.
pub fn changes_between(alloc: Global, before: &Image, now: &Now<'_>) -> Result<Delta, AllocError>
    requires before { IsInOrder before.now }
    requires now { IsInOrder (image_seen now.now) }
    requires bindings { AreAmong before.now.bindings now.now.bindings.now }
    requires cells { KeepsUnmarked before.now.cells now.now.cells.now }
    requires nodes { IsFront before.now.nodes now.now.nodes.now }
    requires log { IsFront before.now.log now.now.log.now }
    requires requests { RequestsStay before.now.requests now.now.requests.now }
    requires threads { KeepsThreads before.now.threads now.now.threads.now }
    ensures leads { IfOk result (LeadsTo before.now (image_seen now.now)) }
    ensures least { IfOk result (IsLeast before.now) }
{
    let requests = renewal(alloc, before.requests.as_slice(), now.requests)?;
    let threads = renewal(alloc, before.threads.as_slice(), now.threads)?;
    Ok(Delta {
        next_request: now.next_request,
        next_thread: now.next_thread,
        result: now.result,
        ended: now.ended,
        bindings: new_bindings(alloc, before.bindings.as_slice(), now.bindings)?,
        cells: changed_cells(alloc, before.cells.as_slice(), now.cells)?,
        nodes: new_nodes(alloc, before.nodes.as_slice(), now.nodes)?,
        log: added_bytes(alloc, before.log.as_slice(), now.log)?,
        closed_requests: requests.gone,
        requests: requests.written,
        held: HeldExecutors::from_slice(alloc, now.held)?,
        ended_threads: threads.gone,
        threads: threads.written,
    })
}
