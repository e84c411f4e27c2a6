//! The image of a build.
ghost use Rattle.std.specs.Prelude.{◌≡◌, true, map, None, IfOk, OnOk};
ghost use Rattle.std.specs.List.{AllByRecursion as AllAre};
ghost use Rattle.model_run.specs.World as W;
ghost use Rattle.green_threads.specs.declared.runner.Seated.{Seated as Seat};
ghost use Rattle.cps_code.specs.Script.{IsScript, script_of};
ghost use Rattle.image_check.specs.Images.{first_fault};
ghost use Rattle.saved_thread.specs.Lower.thread_fits.Seats.{as_seat};
ghost use Rattle.saved_thread.specs.Saving.{AtNodes, thread_told};
ghost use Rattle.build_core.specs.Builds.{StandsFor, setting_in};
ghost use Rattle.build_core.specs.Phases.{has_begun};
ghost use Rattle.build_core.specs.declared.phase.Phase.TheVariants.{Stopped};
ghost use Rattle.build_images.specs.Images.{HasImage, IsOrdered, IsWhole, image_in, world_image};

use build_core::{Build, Phase};
use cell_heap::Heap;
use cps_code::Code;
use green_threads::Seated;
use image_form::{Image, ImageThreads};
use model_run::{FlowNode, FlowNodes, HeldExecutors, OpenRequests};
use model_text::{Bytes, Sequence};
use model_values::{Binding, Cell};
use saved_thread::SavedThread;
use std::alloc::{AllocError, Global};

/// The image of a build that has begun, whether it has ended or not. It passes the check of images (`check` of `image_check`),
/// whatever image the build was restored from, and a build is restored from it.
///
/// # Errors
///
/// `AllocError` where the memory was refused, in this call or while the build took an event.
pub fn image_of<R: SavedThread + Drop>(build: &Build<R>) -> Result<Image, AllocError>
    requires begun { has_begun build.now.phase ≡ true }
    ensures here { IfOk result (λ image. image ≡ image_in R.stance build.now) }
    ensures world { IfOk result (λ image. (w : W.Build) → StandsFor R.stance build.now w → image ≡ world_image (setting_in build.now) w) }
    ensures ordered { IfOk result (IsOrdered (setting_in build.now)) }
    ensures whole { IfOk result (IsWhole (setting_in build.now)) }
    ensures image { OnOk result (HasImage R.stance build.now) }
    ensures passes { IfOk result (λ image. first_fault (script_of build.now.shared.code) build.now.shared.site image ≡ None) }
    ensures goes_on { OnOk result (build.now.phase ≡ Stopped → ⊥) }
{
    let threads = threads_in(build)?;
    let image = image_with(build, threads)?;
    Ok(image)
}

/// What the image of a build that has begun has of its threads, whether the build has ended or not. `AllocError` where the
/// memory was refused, in this call or while the build took an event.
fn threads_in<R: SavedThread + Drop>(build: &Build<R>) -> Result<ImageThreads, AllocError>
    requires begun { has_begun build.now.phase ≡ true }
    ensures here { IfOk result (λ threads. threads ≡ (image_in R.stance build.now).threads) }
    ensures image { OnOk result (HasImage R.stance build.now) }
    ensures goes_on { OnOk result (build.now.phase ≡ Stopped → ⊥) }
{
    if build.phase() == Phase::Stopped {
        return Err(AllocError);
    }
    let threads = threads_told(build)?;
    Ok(threads)
}

/// What the image of a build that goes on or has ended has of its threads. `AllocError` where the memory was refused.
fn threads_told<R: SavedThread + Drop>(build: &Build<R>) -> Result<ImageThreads, AllocError>
    requires begun { has_begun build.now.phase ≡ true }
    requires goes_on { build.now.phase ≡ Stopped → ⊥ }
    ensures here { IfOk result (λ threads. threads ≡ (image_in R.stance build.now).threads) }
    ensures image { OnOk result (HasImage R.stance build.now) }
    ensures on { OnOk result (build.now.phase ≡ Stopped → ⊥) }
{
    let shared = build.shared();
    let group = build.group();
    let threads = threads_of::<R>(shared.alloc(), &shared.code, group.threads())?;
    Ok(threads)
}

/// The image of a build, which has these threads. `AllocError` where the memory was refused.
fn image_with<R: SavedThread + Drop>(
    build: &Build<R>,
    threads: ImageThreads,
) -> Result<Image, AllocError>
    requires { threads ≡ (image_in R.stance build.now).threads }
    ensures here { IfOk result (λ image. image ≡ image_in R.stance build.now) }
    ensures script { OnOk result (IsScript (script_of build.now.shared.code)) }
{
    let shared = build.shared();
    let group = build.group();
    let alloc = shared.alloc();
    // code that is read tells that it is a script's
    let _nodes = shared.code.len();
    Ok(Image {
        next_request: shared.next_request,
        next_thread: group.next(),
        result: shared.result,
        ended: build.has_ended(),
        bindings: copied_bindings(&shared.binding)?,
        cells: cells_of(alloc, &shared.heap)?,
        nodes: nodes_of(alloc, shared.graph.nodes())?,
        log: Bytes::from_slice(alloc, shared.log.bytes())?,
        requests: copied_requests(&shared.requests)?,
        held: HeldExecutors::from_slice(alloc, shared.held.as_slice())?,
        threads,
    })
}

/// The cells of a heap once more. `AllocError` where the memory was refused.
fn cells_of(alloc: Global, heap: &Heap) -> Result<Sequence<Cell>, AllocError>
    ensures { IfOk result (λ cells. cells ≡ heap.now.cells) }
{
    let mut cells = Sequence::new(alloc);
    for id in 0..heap.len() {
        cells.push(copied(heap.get(id))?)?;
    }
    Ok(cells)
}

/// Flow nodes once more. `AllocError` where the memory was refused.
fn nodes_of(alloc: Global, nodes: &[FlowNode]) -> Result<FlowNodes, AllocError>
    ensures { IfOk result (λ copies. copies ≡ nodes.now) }
{
    let mut copies = FlowNodes::new(alloc);
    for node in nodes {
        copies.push(copied_node(node)?)?;
    }
    Ok(copies)
}

/// What an image has of threads. `AllocError` where the memory was refused.
fn threads_of<R: SavedThread>(
    alloc: Global,
    code: &Code,
    seats: &[Seated<R>],
) -> Result<ImageThreads, AllocError>
    requires nodes { AllAre (λ (x : Seat R). AtNodes (script_of code.now) (R.stance x.thread).frames) seats.now }
    ensures { IfOk result (λ threads. threads ≡ map (thread_told (script_of code.now)) (map (as_seat R.stance) seats.now)) }
{
    let mut threads = ImageThreads::new(alloc);
    for seat in seats {
        threads.push(R::saved(alloc, code, seat, 0)?)?;
    }
    Ok(threads)
}

/// The same cell once more. `AllocError` where the memory was refused.
fn copied(cell: &Cell) -> Result<Cell, AllocError>
    ensures { IfOk result (λ copy. copy ≡ cell.now) }
{
    let copy = cell.clone()?;
    Ok(copy)
}

/// The same flow node once more. `AllocError` where the memory was refused.
fn copied_node(node: &FlowNode) -> Result<FlowNode, AllocError>
    ensures { IfOk result (λ copy. copy ≡ node.now) }
{
    let copy = node.clone()?;
    Ok(copy)
}

/// The same variables once more. `AllocError` where the memory was refused.
fn copied_bindings(bindings: &Vec<Binding>) -> Result<Sequence<Binding>, AllocError>
    ensures { IfOk result (λ copy. copy ≡ bindings.now.items) }
{
    let copy = bindings.clone()?;
    Ok(Sequence::from_vec(copy))
}

/// The same open requests once more. `AllocError` where the memory was refused.
fn copied_requests(requests: &OpenRequests) -> Result<OpenRequests, AllocError>
    ensures { IfOk result (λ copy. copy ≡ requests.now) }
{
    let copy = requests.clone()?;
    Ok(copy)
}
