//! The threads of a build as they stand behind an event, over the image before it.
ghost use Rattle.std.specs.Prelude.{◌≡◌, ◌≤◌, true, length, map, min, take, IfOk, OnOk, Option, Some, None};
ghost use Rattle.std.specs.List.{AllByRecursion as AllAre};
ghost use Rattle.std.specs.Option.{option_copied};
ghost use Rattle.model_run.specs.Fitting.{Rises};
ghost use Rattle.green_threads.specs.declared.runner.Seated.{Seated as Seat};
ghost use Rattle.image_form.specs.declared.image.ImageThread.{ImageThread as Stood};
ghost use Rattle.cps_code.specs.Script.{script_of};
ghost use Rattle.saved_thread.specs.Lower.thread_fits.Seats.{as_seat};
ghost use Rattle.saved_thread.specs.Saving.{AtNodes, thread_told, told_from};
ghost use Rattle.build_core.specs.Phases.{has_begun};
ghost use Rattle.build_core.specs.declared.phase.Phase.TheVariants.{Stopped};
ghost use Rattle.image_changes.specs.Seen.{KeepsThread, KeepsThreads, thread_seen};
ghost use Rattle.image_changes.specs.declared.now.NowThread.TheVariants as thread;
ghost use Rattle.build_images.specs.Fronts.{HasStood, HasStoodAs, ThreadsStand, thread_at};
ghost use Rattle.build_images.specs.Images.{HasImage, image_in};

use build_core::{Build, Phase};
use cps_code::Code;
use green_threads::Seated;
use image_changes::NowThread;
use image_form::{ImageFrame, ImageThread};
use saved_thread::SavedThread;
use std::alloc::{AllocError, Global};

/// The threads of a build that has begun, whether it has ended or not, as they stand behind an event. Those that took no
/// turn since they were marked are those of the image before but for their parents and what they wait for; of the others
/// the frames that count as untouched are. It takes the time of the other frames of those that took a turn, of what these
/// wait for and their contexts, and the square of how many threads there are, which are at most 256.
///
/// # Errors
///
/// `AllocError` where the memory was refused, in this call or while the build took an event.
pub fn threads_now<'a, R: SavedThread + Drop>(
    build: &'a Build<R>,
    before: &'a [ImageThread],
) -> Result<Vec<NowThread<'a>>, AllocError>
    requires begun { has_begun build.now.phase ≡ true }
    requires order { Rises (map (λ t. t.number) before.now) }
    requires stood { ThreadsStand R.low R.touched R.stance (script_of build.now.shared.code) before.now build.now.group.seats }
    ensures here { IfOk result (λ threads. map thread_seen threads.items ≡ (image_in R.stance build.now).threads) }
    ensures keeps { IfOk result (λ threads. KeepsThreads before.now threads.items) }
    ensures image { OnOk result (HasImage R.stance build.now) }
{
    if build.phase() == Phase::Stopped {
        return Err(AllocError);
    }
    let threads = threads_told(build, before)?;
    Ok(threads)
}

/// The threads of a build that goes on or has ended. `AllocError` where the memory was refused.
fn threads_told<'a, R: SavedThread + Drop>(
    build: &'a Build<R>,
    before: &'a [ImageThread],
) -> Result<Vec<NowThread<'a>>, AllocError>
    requires begun { has_begun build.now.phase ≡ true }
    requires goes_on { build.now.phase ≡ Stopped → ⊥ }
    requires order { Rises (map (λ t. t.number) before.now) }
    requires stood { ThreadsStand R.low R.touched R.stance (script_of build.now.shared.code) before.now build.now.group.seats }
    ensures here { IfOk result (λ threads. map thread_seen threads.items ≡ (image_in R.stance build.now).threads) }
    ensures keeps { IfOk result (λ threads. KeepsThreads before.now threads.items) }
    ensures image { OnOk result (HasImage R.stance build.now) }
{
    let shared = build.shared();
    let group = build.group();
    let threads = threads_of::<R>(shared.alloc(), &shared.code, group.threads(), before)?;
    Ok(threads)
}

/// These threads. `AllocError` where the memory was refused.
fn threads_of<'a, R: SavedThread>(
    alloc: Global,
    code: &Code,
    seats: &'a [Seated<R>],
    before: &'a [ImageThread],
) -> Result<Vec<NowThread<'a>>, AllocError>
    requires nodes { AllAre (λ (x : Seat R). AtNodes (script_of code.now) (R.stance x.thread).frames) seats.now }
    requires order { Rises (map (λ t. t.number) before.now) }
    requires stood { ThreadsStand R.low R.touched R.stance (script_of code.now) before.now seats.now }
    ensures here { IfOk result (λ threads. map thread_seen threads.items ≡ map (thread_told (script_of code.now)) (map (as_seat R.stance) seats.now)) }
    ensures keeps { IfOk result (λ threads. KeepsThreads before.now threads.items) }
{
    let mut threads = Vec::new(alloc);
    for seat in seats {
        threads.push(thread_of::<R>(alloc, code, seat, before)?)?;
    }
    Ok(threads)
}

/// This thread, over the one of its number that stood. `AllocError` where the memory was refused.
fn thread_of<'a, R: SavedThread>(
    alloc: Global,
    code: &Code,
    seat: &'a Seated<R>,
    before: &'a [ImageThread],
) -> Result<NowThread<'a>, AllocError>
    requires nodes { AtNodes (script_of code.now) (R.stance seat.now.thread).frames }
    requires order { Rises (map (λ t. t.number) before.now) }
    requires stood { AllAre (HasStoodAs R.low R.touched R.stance (script_of code.now) seat.now) before.now }
    ensures here { IfOk result (λ t. thread_seen t ≡ thread_told (script_of code.now) (as_seat R.stance seat.now)) }
    ensures keeps { IfOk result (λ t. AllAre (λ (x : Stood). x.number ≡ (thread_seen t).number → KeepsThread x t) before.now) }
{
    match stood_at(before, seat.number) {
        Some(stood) => thread_over(alloc, code, seat, stood),
        None => thread_behind(alloc, code, seat, &[]),
    }
}

/// The thread of this number that stood, where there is one.
fn stood_at(before: &[ImageThread], number: u32) -> Option<&ImageThread>
    ensures { option_copied result ≡ thread_at number before.now }
{
    for stood in before {
        if stood.number == number {
            return Some(stood);
        }
    }
    None
}

/// This thread over the one of its number that stood: borrowed where it took no turn, else its frames in front.
/// `AllocError` where the memory was refused.
fn thread_over<'a, R: SavedThread>(
    alloc: Global,
    code: &Code,
    seat: &'a Seated<R>,
    stood: &'a ImageThread,
) -> Result<NowThread<'a>, AllocError>
    requires nodes { AtNodes (script_of code.now) (R.stance seat.now.thread).frames }
    requires stood { HasStood R.low R.touched R.stance (script_of code.now) seat.now stood.now }
    ensures here { IfOk result (λ t. thread_seen t ≡ thread_told (script_of code.now) (as_seat R.stance seat.now)) }
    ensures keeps { IfOk result (KeepsThread stood.now) }
{
    if !seat.thread.is_touched() {
        return Ok(NowThread::Untouched {
            stood,
            parent: seat.parent,
            wait: &seat.wait,
        });
    }
    let front = first_frames(stood.frames.as_slice(), seat.thread.low());
    thread_behind(alloc, code, seat, front)
}

/// A thread that may have taken a turn, with these frames in front, of which it has no fewer. `AllocError` where the
/// memory was refused.
fn thread_behind<'a, R: SavedThread>(
    alloc: Global,
    code: &Code,
    seat: &Seated<R>,
    front: &'a [ImageFrame],
) -> Result<NowThread<'a>, AllocError>
    requires nodes { AtNodes (script_of code.now) (R.stance seat.now.thread).frames }
    requires within { length front.now ≤ length (R.stance seat.now.thread).frames }
    ensures { IfOk result (λ t. t ≡ thread.Touched front.entry (told_from (length front.now) (thread_told (script_of code.now) (as_seat R.stance seat.now)))) }
{
    let thread = R::saved(alloc, code, seat, front.len())?;
    Ok(NowThread::Touched { front, thread })
}

/// So many frames from the outermost on, as far as there are and a delta can count them.
fn first_frames(frames: &[ImageFrame], low: usize) -> &[ImageFrame]
    ensures { result.now ≡ take (min low 4294967295) frames.now }
{
    let count = low.min(4_294_967_295).min(frames.len());
    &frames[..count]
}
