//! A build from its image.
ghost use Rattle.std.specs.Prelude.{◌≡◌, ◌<◌, true, false, List, length, map, IfOk, IfErr, MatchResult, Err};
ghost use Rattle.std.specs.List.{AllByRecursion as AllAre};
ghost use Rattle.model_run.specs.declared.event.Event.{Event};
ghost use Rattle.model_run.specs.Fitting.{FitsAtRest};
ghost use Rattle.model_run.specs.Terms.{nodes_of};
ghost use Rattle.model_run.specs.World as W;
ghost use Rattle.green_threads.specs.Grouping.{FewBranches, IsSeated};
ghost use Rattle.cps_code.specs.Script.{script_of};
ghost use Rattle.image_check.specs.Standings.{shared_in};
ghost use Rattle.saved_thread.specs.Lower.image_frames.Standings.{IsTold};
ghost use Rattle.saved_thread.specs.Lower.thread_fits.Seats.{as_seat};
ghost use Rattle.saved_thread.specs.Saving.{Begun, seat_in};
ghost use Rattle.build_core.specs.Builds.{StandsFor, setting_in};
ghost use Rattle.build_images.specs.Images.{has_remains, image_in, is_none, phase_of, world_image};
ghost use Rattle.build_images.specs.declared.refusal.RestoreRefusal.TheVariants.{Memory, Remains};

use crate::refusal::RestoreRefusal;
use build_core::{Build, Phase};
use build_log::Log;
use cell_heap::Heap;
use cps_code::Code;
use flow_graph::Graph;
use green_threads::{Group, Seated};
use image_form::{Image, ImageThread, ImageThreads};
use model_run::{Site, Wait};
use saved_thread::SavedThread;
use saved_thread::cps_frames::Shared;
use std::alloc::{AllocError, Global};

/// The build of a script on the executors of a site of which this is the image. The image has to be one that passes the check
/// of images (`check` of `image_check`): its frames are told by their kinds and places, and the build of which it tells is
/// sound.
///
/// # Errors
///
/// `Remains` comes exactly where the image is of a build that has ended, and yet has threads, open requests or held
/// executors; `Memory` where the memory was refused, or where a thread has more than 4,294,967,295 calls open or waits for
/// more branches.
pub fn restored<R: SavedThread + Drop>(
    alloc: Global,
    code: Code,
    site: Site,
    image: Image,
) -> Result<Build<R>, RestoreRefusal>
    requires told { AllAre (λ t. AllAre (IsTold (script_of code)) t.frames) image.threads }
    requires fits { FitsAtRest (W.setting_of W.run_limits (script_of code) site) image.ended (shared_in image) image.next_thread (map (seat_in (script_of code)) image.threads) }
    ensures here { IfOk result (λ build. image_in R.stance build ≡ image) }
    ensures setting { IfOk result (λ build. setting_in build ≡ W.setting_of W.run_limits (script_of code) site) }
    ensures phase { IfOk result (λ build. build.phase ≡ phase_of image.ended) }
    ensures stands { IfOk result (λ build. (events : List Event) → (W.world_in (W.setting_of W.run_limits (script_of code) site) events).started ≡ true → image ≡ world_image (W.setting_of W.run_limits (script_of code) site) (W.world_in (W.setting_of W.run_limits (script_of code) site) events) → StandsFor R.stance build (W.world_in (W.setting_of W.run_limits (script_of code) site) events)) }
    ensures remains { MatchResult result (λ _. has_remains image ≡ false) (λ refusal. refusal ≡ Remains → has_remains image ≡ true) }
    ensures refused { has_remains image ≡ true → result ≡ Err Remains }
{
    if has_remains(&image) {
        return Err(RestoreRefusal::Remains);
    }
    let build = build_of(alloc, code, site, image)?;
    Ok(build)
}

/// Whether an image is of a build that has ended, and yet has threads, open requests or held executors.
fn has_remains(image: &Image) -> bool
    ensures { result ≡ has_remains image.now }
{
    let is_clear = is_none(image.threads.as_slice())
        && is_none(image.requests.as_slice())
        && is_none(image.held.as_slice());
    image.ended && !is_clear
}

/// Whether there are no items.
fn is_none<T>(items: &[T]) -> bool
    ensures { result ≡ is_none items.now }
{
    match items {
        [] => true,
        [_, ..] => false,
    }
}

/// The build of which this is the image. `AllocError` where the memory was refused, or where a thread has more than
/// 4,294,967,295 calls open or waits for more branches.
fn build_of<R: SavedThread + Drop>(
    alloc: Global,
    code: Code,
    site: Site,
    image: Image,
) -> Result<Build<R>, AllocError>
    requires told { AllAre (λ t. AllAre (IsTold (script_of code)) t.frames) image.threads }
    requires fits { FitsAtRest (W.setting_of W.run_limits (script_of code) site) image.ended (shared_in image) image.next_thread (map (seat_in (script_of code)) image.threads) }
    requires over { has_remains image ≡ false }
    ensures here { IfOk result (λ build. image_in R.stance build ≡ image) }
    ensures setting { IfOk result (λ build. setting_in build ≡ W.setting_of W.run_limits (script_of code) site) }
    ensures phase { IfOk result (λ build. build.phase ≡ phase_of image.ended) }
    ensures stands { IfOk result (λ build. (events : List Event) → (W.world_in (W.setting_of W.run_limits (script_of code) site) events).started ≡ true → image ≡ world_image (W.setting_of W.run_limits (script_of code) site) (W.world_in (W.setting_of W.run_limits (script_of code) site) events) → StandsFor R.stance build (W.world_in (W.setting_of W.run_limits (script_of code) site) events)) }
{
    // code that is read tells that it is a script's
    let _nodes = code.len();
    let Image {
        next_request,
        next_thread,
        result,
        ended,
        bindings,
        cells,
        nodes,
        log,
        requests,
        held,
        threads,
    } = image;
    let seats = seats_of::<R>(alloc, &code, threads)?;
    let shared = Shared {
        code,
        site,
        heap: Heap::restore(alloc, cells.into_vec())?,
        binding: bindings.into_vec(),
        graph: Graph::of(nodes.into_vec()),
        log: Log::of(log),
        result,
        requests,
        held,
        next_request,
        count: 0,
    };
    let group = Group::restore(alloc, seats, next_thread);
    Ok(Build::of_parts(phase_of(ended), shared, group))
}

/// How far a build has come that has begun: it has ended or goes on.
fn phase_of(ended: bool) -> Phase
    ensures { result ≡ phase_of ended }
{
    if ended { Phase::Ended } else { Phase::Running }
}

/// The threads that an image tells of, in their seats. `AllocError` where the memory was refused, or where a thread has more
/// than 4,294,967,295 calls open or waits for more branches.
fn seats_of<R: SavedThread + Drop>(
    alloc: Global,
    code: &Code,
    threads: ImageThreads,
) -> Result<Vec<Seated<R>>, AllocError>
    requires nodes { AllAre (λ t. AllAre (λ f. f.node < length (nodes_of (script_of code.now))) t.frames) threads }
    ensures told { IfOk result (λ seats. map (as_seat R.stance) seats.items ≡ map (seat_in (script_of code.now)) threads) }
    ensures begun { IfOk result (λ seats. AllAre (Begun R.stance) seats.items) }
    ensures seated { IfOk result (λ seats. AllAre (IsSeated R.number R.parent R.branch) seats.items) }
{
    let mut seats = Vec::with_capacity(alloc, threads.len())?;
    for thread in threads.into_vec() {
        seats.push(seat_of::<R>(alloc, code, thread)?)?;
    }
    Ok(seats)
}

/// The thread that an image tells of, in its seat. `AllocError` where the memory was refused, or where it has more than
/// 4,294,967,295 calls open or waits for more branches.
fn seat_of<R: SavedThread + Drop>(
    alloc: Global,
    code: &Code,
    thread: ImageThread,
) -> Result<Seated<R>, AllocError>
    requires nodes { AllAre (λ f. f.node < length (nodes_of (script_of code.now))) thread.frames }
    ensures told { IfOk result (λ seat. as_seat R.stance seat ≡ seat_in (script_of code.now) thread) }
    ensures begun { IfOk result (Begun R.stance) }
    ensures seated { IfOk result (IsSeated R.number R.parent R.branch) }
{
    if !has_few_branches(&thread.wait) {
        return Err(AllocError);
    }
    R::restored(alloc, code, thread)
}

/// Whether a wait for branches is for at most 4,294,967,295 of them.
fn has_few_branches(wait: &Wait) -> bool
    ensures { result ≡ true → FewBranches wait.now }
{
    match wait {
        Wait::Branches(joins) => joins.len() <= 4294967295,
        Wait::Ready(_) | Wait::Request(_) => true,
    }
}
