//! What an event changed of a build.
ghost use Rattle.std.specs.Prelude.{◌≡◌, map, true, IfSome, IfOk, IfErr};
ghost use Rattle.delta_records.specs.Lower.record_form.Ordered.{IsInOrder};
ghost use Rattle.build_images.specs.Lower.image_changes.Least.{IsLeast};
ghost use Rattle.build_images.specs.Lower.image_changes.Parts.{LeadsTo};
ghost use Rattle.build_images.specs.Lower.image_changes.Seen.{image_seen, thread_seen};
ghost use Rattle.build_images.specs.Lower.build_core.Phases.{has_begun};
ghost use Rattle.build_images.specs.Images.{HasImage, image_in};
ghost use Rattle.durable_build.specs.Adding.{IsDueDelta, MarksChanges};
ghost use Rattle.durable_build.specs.Standing.{BeginsWhole};

use crate::store::Last;
use build_images::build_core::Build;
use build_images::image_changes::{Now, NowThread, changes_between};
use build_images::saved_thread::SavedThread;
use build_images::threads_now;
use delta_records::delta_form::Delta;
use image_form::Image;
use journal_core::TakeFault;
use std::alloc::{AllocError, Global};

/// What changed from the image of the last record, where the next record is to hold that alone; `None` where it is to
/// hold a whole image.
pub fn due_changes<R: SavedThread + Drop>(
    alloc: Global,
    build: &Build<R>,
    last: &Last,
) -> Result<Option<Delta>, TakeFault>
    requires begun { has_begun build.now.phase ≡ true }
    requires order { IfSome last.now.image IsInOrder }
    requires marks { IfSome last.now.image (λ before. MarksChanges R.low R.touched R.stance before build.now) }
    requires first { BeginsWhole last.now.image last.now.weights }
    ensures due { IfOk result (IsDueDelta last.now.weights last.now.image (image_in R.stance build.now)) }
    ensures image { IfOk result (λ changes. IfSome changes (λ _. HasImage R.stance build.now)) }
    ensures fault { IfErr result (λ e. e ≡ TakeFault.Memory) }
{
    if last.weights.whole <= last.weights.behind {
        return Ok(None);
    }
    match &last.image {
        None => unreachable!(),
        Some(before) => match changes_from(alloc, before, build) {
            Ok(changes) => Ok(Some(changes)),
            Err(_) => Err(TakeFault::Memory),
        },
    }
}

/// What changed from this image. Cells that are not marked, flow nodes that stood and what was logged before are not
/// looked at, nor what the open requests ask and what came to their outputs before. `AllocError` where the memory was
/// refused.
fn changes_from<R: SavedThread + Drop>(
    alloc: Global,
    before: &Image,
    build: &Build<R>,
) -> Result<Delta, AllocError>
    requires begun { has_begun build.now.phase ≡ true }
    requires order { IsInOrder before.now }
    requires marks { MarksChanges R.low R.touched R.stance before.now build.now }
    ensures leads { IfOk result (LeadsTo before.now (image_in R.stance build.now)) }
    ensures least { IfOk result (IsLeast before.now) }
    ensures image { IfOk result (λ _. HasImage R.stance build.now) }
{
    let threads = threads_now(build, before.threads.as_slice())?;
    let changes = changes_between(alloc, before, &seen(build, &threads))?;
    Ok(changes)
}

/// The parts of a build as they stand now, with what its image has of the threads.
fn seen<'a, R: SavedThread + Drop>(build: &'a Build<R>, threads: &'a [NowThread<'a>]) -> Now<'a>
    requires { map thread_seen threads.now ≡ (image_in R.stance build.now).threads }
    ensures image { image_seen result ≡ image_in R.stance build.now }
    ensures bindings { result.bindings.now ≡ build.now.shared.binding.items }
    ensures cells { result.cells.now ≡ build.now.shared.heap }
    ensures nodes { result.nodes.now ≡ build.now.shared.graph }
    ensures threads { result.threads.now ≡ threads.now }
    ensures log { result.log.now ≡ build.now.shared.log }
    ensures requests { result.requests.now ≡ build.now.shared.requests }
{
    let shared = build.shared();
    Now {
        next_request: shared.next_request,
        next_thread: build.group().next(),
        result: shared.result,
        ended: build.has_ended(),
        bindings: &shared.binding,
        cells: &shared.heap,
        nodes: shared.graph.nodes(),
        log: shared.log.bytes(),
        requests: shared.requests.as_slice(),
        held: shared.held.as_slice(),
        threads,
    }
}
