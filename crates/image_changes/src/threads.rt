//! Green threads that are new or were changed.

ghost use Rattle.std.specs.Prelude.{◌≡◌, ◌↔◌, ◌≤◌, ◌++◌, IfOk, IsTrue, OnOk, Some, None, length, drop, min};
ghost use Rattle.model_run.specs.FlowNodes.{IsFront};
ghost use Rattle.delta_form.specs.After.{written_thread};
ghost use Rattle.image_changes.specs.Growing.{HasSameNumbers, IsCommon, IsCounted, IsSameSeat, with_front};
ghost use Rattle.image_changes.specs.Least.{KeepsMost};
ghost use Rattle.image_changes.specs.Seen.{HasFront, behind_frames, thread_seen};
ghost use Rattle.image_changes.specs.Walks.{Writes};

use crate::now::NowThread;
use crate::same::{Same, are_same, common_length};
use delta_form::WrittenThread;
use image_form::{ImageFrame, ImageThread};
use model_run::{Context, Wait};
use model_text::Sequence;
use std::alloc::{AllocError, Global};

/// The number of a thread.
pub(crate) fn number_of(item: &NowThread<'_>) -> u32
    ensures { result ≡ (thread_seen item.now).number }
{
    match item {
        NowThread::Untouched { stood, .. } => stood.number,
        NowThread::Touched { thread, .. } => thread.number,
    }
}

/// A thread that is new, with all its frames.
pub(crate) fn new_thread(alloc: Global, item: &NowThread<'_>) -> Result<WrittenThread, AllocError>
    ensures { IfOk result (λ w. w ≡ with_front (thread_seen item.now) 0) }
{
    match item {
        NowThread::Untouched {
            stood,
            parent,
            wait,
        } => {
            let frames = all_frames(alloc, &[], stood.frames.as_slice())?;
            written_with(stood, *parent, wait, 0, frames)
        }
        NowThread::Touched { front, thread } => {
            let frames = all_frames(alloc, front, thread.frames.as_slice())?;
            written_with(thread, thread.parent, &thread.wait, 0, frames)
        }
    }
}

/// How a thread that stood is written where it took no turn and has this parent and waits for this now, or nothing
/// where it did so before. Nothing else of it is looked at.
pub(crate) fn written_in_place(
    alloc: Global,
    stood: &ImageThread,
    parent: Option<u32>,
    wait: &Wait,
) -> Result<Option<WrittenThread>, AllocError>
    ensures { IfOk result (Writes (λ t. t.number) (λ w. w.number) written_thread KeepsMost stood.now (record stood.now { parent = parent; wait = wait.now })) }
{
    if waits_alike(stood, parent, wait) {
        return Ok(None);
    }
    let kept = stood.frames.len().min(4_294_967_295) as u32;
    let frames = frames_behind(alloc, stood.frames.as_slice(), kept as usize)?;
    Ok(Some(written_with(stood, parent, wait, kept, frames)?))
}

/// Whether a thread has this parent and waits for this.
fn waits_alike(stood: &ImageThread, parent: Option<u32>, wait: &Wait) -> bool
    ensures { IsTrue result ↔ ((stood.now.parent ≡ parent) × (stood.now.wait ≡ wait.now)) }
{
    stood.parent == parent && stood.wait.is_same(wait)
}

/// How a thread that stood is written that may have taken a turn and has these frames in front, or nothing where it is
/// as it was.
pub(crate) fn written_behind(
    alloc: Global,
    stood: &ImageThread,
    front: &[ImageFrame],
    thread: &ImageThread,
) -> Result<Option<WrittenThread>, AllocError>
    requires number { stood.now.number ≡ thread.now.number }
    requires front { HasFront stood.now front.now }
    ensures { IfOk result (Writes (λ t. t.number) (λ w. w.number) written_thread KeepsMost stood.now (behind_frames front.now thread.now)) }
{
    if is_same_thread(stood, front, thread) {
        return Ok(None);
    }
    let kept = common(stood, front, thread);
    let frames = frames_from(alloc, front, thread, kept)?;
    Ok(Some(written_with(thread, thread.parent, &thread.wait, kept, frames)?))
}

/// Whether nothing of a thread was changed.
fn is_same_thread(stood: &ImageThread, front: &[ImageFrame], thread: &ImageThread) -> bool
    requires { HasFront stood.now front.now }
    ensures { IsTrue result ↔ (stood.now ≡ behind_frames front.now thread.now) }
{
    is_same_seat(stood, thread) && has_same_frames(stood, front, thread)
}

/// Whether both have the same frames: those in front are.
fn has_same_frames(stood: &ImageThread, front: &[ImageFrame], thread: &ImageThread) -> bool
    requires { HasFront stood.now front.now }
    ensures { IsTrue result ↔ (stood.now.frames ≡ front.now ++ thread.now.frames) }
{
    let rest = behind_front(stood.frames.as_slice(), front);
    are_same(rest, thread.frames.as_slice())
}

/// The frames behind those in front.
fn behind_front<'a>(frames: &'a [ImageFrame], front: &[ImageFrame]) -> &'a [ImageFrame]
    requires front { IsFront front.now frames.now }
    ensures { frames.now ≡ front.now ++ result.now }
{
    &frames[front.len()..]
}

/// Whether two threads differ at most in their frames.
fn is_same_seat(stood: &ImageThread, item: &ImageThread) -> bool
    ensures { IsTrue result ↔ IsSameSeat stood.now item.now }
{
    has_same_numbers(stood, item)
        && stood.wait.is_same(&item.wait)
        && stood.context.is_same(&item.context)
}

/// Whether two threads have the same numbers.
fn has_same_numbers(stood: &ImageThread, item: &ImageThread) -> bool
    ensures { IsTrue result ↔ HasSameNumbers stood.now item.now }
{
    (stood.number, stood.parent, stood.head) == (item.number, item.parent, item.head)
}

/// How many frames from the outermost on are the same, as far as a delta counts them.
fn common(stood: &ImageThread, front: &[ImageFrame], thread: &ImageThread) -> u32
    requires { HasFront stood.now front.now }
    ensures { IsCommon stood.now.frames (front.now ++ thread.now.frames) (length front.now) result }
{
    let rest = behind_front(stood.frames.as_slice(), front);
    let more = common_length(rest, thread.frames.as_slice());
    counted(front.len(), more)
}

/// So many and so many more, as far as a delta counts them.
fn counted(known: usize, more: usize) -> u32
    requires few { known ≤ 4294967295 }
    ensures { IsCounted known more result }
{
    known.saturating_add(more).min(4_294_967_295) as u32
}

/// The thread with this parent, which waits for this, with so many of its frames kept, and these written.
fn written_with(
    item: &ImageThread,
    parent: Option<u32>,
    wait: &Wait,
    kept: u32,
    frames: Sequence<ImageFrame>,
) -> Result<WrittenThread, AllocError>
    ensures { IfOk result (λ w. w ≡ record (with_front item.now kept) { parent = parent; wait = wait.now; frames = frames }) }
{
    let wait = copied_wait(wait)?;
    let context = copied_context(&item.context)?;
    Ok(WrittenThread {
        number: item.number,
        parent,
        head: item.head,
        wait,
        context,
        kept,
        frames,
    })
}

/// The same wait once more.
fn copied_wait(wait: &Wait) -> Result<Wait, AllocError>
    ensures { IfOk result (λ copy. copy ≡ wait.now) }
{
    let copy = wait.clone()?;
    Ok(copy)
}

/// The same context once more.
fn copied_context(context: &Context) -> Result<Context, AllocError>
    ensures { IfOk result (λ copy. copy ≡ context.now) }
{
    let copy = context.clone()?;
    Ok(copy)
}

/// All frames once more, those in front and those behind them.
fn all_frames(
    alloc: Global,
    front: &[ImageFrame],
    frames: &[ImageFrame],
) -> Result<Sequence<ImageFrame>, AllocError>
    ensures { IfOk result (λ copies. copies ≡ front.now ++ frames.now) }
{
    let mut copies = Sequence::new(alloc);
    copy_frames(&mut copies, front)?;
    copy_frames(&mut copies, frames)?;
    Ok(copies)
}

/// The frames from this one on once more, which is not one of those in front.
fn frames_from(
    alloc: Global,
    front: &[ImageFrame],
    thread: &ImageThread,
    first: u32,
) -> Result<Sequence<ImageFrame>, AllocError>
    requires behind { length front.now ≤ first }
    requires within { first ≤ length (front.now ++ thread.now.frames) }
    ensures { IfOk result (λ copies. copies ≡ drop first (front.now ++ thread.now.frames)) }
{
    let place = first as usize - front.len();
    let copies = frames_behind(alloc, thread.frames.as_slice(), place)?;
    Ok(copies)
}

/// The frames from this one on once more.
fn frames_behind(
    alloc: Global,
    frames: &[ImageFrame],
    first: usize,
) -> Result<Sequence<ImageFrame>, AllocError>
    requires within { first ≤ length frames.now }
    ensures { IfOk result (λ copies. copies ≡ drop first frames.now) }
{
    let mut copies = Sequence::new(alloc);
    copy_frames(&mut copies, &frames[first..])?;
    Ok(copies)
}

/// Puts the frames behind the copies once more.
fn copy_frames(copies: &mut Sequence<ImageFrame>, frames: &[ImageFrame]) -> Result<(), AllocError>
    ensures { OnOk result (copies.new ≡ copies.old ++ frames.now) }
{
    for frame in frames {
        copies.push(copied_frame(frame)?)?;
    }
    Ok(())
}

/// The same frame once more.
fn copied_frame(frame: &ImageFrame) -> Result<ImageFrame, AllocError>
    ensures { IfOk result (λ copy. copy ≡ frame.now) }
{
    Ok(ImageFrame {
        kind: frame.kind,
        node: frame.node,
        at: frame.at,
        env: frame.env.clone()?,
        values: frame.values.clone()?,
    })
}
