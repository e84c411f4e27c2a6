//! Frames as an image has them, and back.
ghost use Rattle.std.specs.Prelude.{◌≡◌, ◌<◌, length, map, IfOk};
ghost use Rattle.std.specs.List.{AllByRecursion as AllAre};
ghost use Rattle.model_run.specs.Opened.{calls_of, opens_call};
ghost use Rattle.model_run.specs.Terms.{nodes_of};
ghost use Rattle.cps_code.specs.Script.{script_of};
ghost use Rattle.image_frames.specs.Standings.{frame_in, kind_of};
ghost use Rattle.saved_thread.specs.Saving.{AtNodes, frame_told};

use cps_code::Code;
use frame_rows::{frame_kind, frame_row, kind_number, left_at};
use image_form::ImageFrame;
use model_run::{Frame, FrameKind};
use model_text::Sequence;
use std::alloc::{AllocError, Global};

/// Frames as an image has them. `AllocError` where the memory was refused.
pub fn frames_told(
    alloc: Global,
    code: &Code,
    frames: &[Frame],
) -> Result<Sequence<ImageFrame>, AllocError>
    requires { AtNodes (script_of code.now) frames.now }
    ensures { IfOk result (λ told. told ≡ map (frame_told (script_of code.now)) frames.now) }
{
    let mut told = Sequence::new(alloc);
    for frame in frames {
        told.push(frame_told(code, frame)?)?;
    }
    Ok(told)
}

/// A frame as an image has it: its kind by number, and how many parts of its node are done.
fn frame_told(code: &Code, frame: &Frame) -> Result<ImageFrame, AllocError>
    requires { frame.now.node < length (nodes_of (script_of code.now)) }
    ensures { IfOk result (λ told. told ≡ frame_told (script_of code.now) frame.now) }
{
    let row = frame_row(code, frame.kind, frame.node, frame.left, &frame.env);
    Ok(ImageFrame {
        kind: kind_number(frame.kind),
        node: frame.node,
        at: row.done,
        env: frame.env.clone()?,
        values: frame.values.clone()?,
    })
}

/// The frames that an image tells of. `AllocError` where the memory was refused.
pub fn frames_in(
    alloc: Global,
    code: &Code,
    told: Sequence<ImageFrame>,
) -> Result<Vec<Frame>, AllocError>
    requires { AllAre (λ f. f.node < length (nodes_of (script_of code.now))) told }
    ensures { IfOk result (λ frames. frames.items ≡ map (frame_in (script_of code.now)) told) }
{
    let mut frames = Vec::with_capacity(alloc, told.len())?;
    for frame in told.into_vec() {
        frames.push(frame_in(code, frame))?;
    }
    Ok(frames)
}

/// The frame that an image tells of: its kind by its number, and how many parts of its node still come.
fn frame_in(code: &Code, told: ImageFrame) -> Frame
    requires { told.node < length (nodes_of (script_of code.now)) }
    ensures { result ≡ frame_in (script_of code.now) told }
{
    let kind = kind_of(told.kind);
    Frame {
        kind,
        node: told.node,
        left: left_at(code, kind, told.node, told.at),
        env: told.env,
        values: told.values,
    }
}

/// The kind with this number. That of a statement stands for a number that no kind has; an image that passes its check has
/// none.
fn kind_of(number: u8) -> FrameKind
    ensures { result ≡ kind_of number }
{
    frame_kind(number).unwrap_or(FrameKind::Statement)
}

/// How many calls are open inside frames: each body of a closure or function is one. `AllocError` where they are more than
/// 4,294,967,295.
pub fn open_calls(frames: &[Frame]) -> Result<u32, AllocError>
    ensures { IfOk result (λ calls. calls ≡ calls_of frames.now) }
{
    let mut calls: u32 = 0;
    for frame in frames {
        calls = calls.checked_add(opens_call(frame.kind)).ok_or(AllocError)?;
    }
    Ok(calls)
}

/// How many calls a frame of this kind stands for: one where it is the body of a closure or function.
fn opens_call(kind: FrameKind) -> u32
    ensures { result ≡ opens_call kind }
{
    match kind {
        FrameKind::CallBody => 1,
        _ => 0,
    }
}
