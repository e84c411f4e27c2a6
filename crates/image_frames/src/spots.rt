//! What may stand at a spot.

ghost use Rattle.std.specs.Prelude.{◌≡◌, ◌<◌, length};
ghost use Rattle.std.specs.Option.{option_map};
ghost use Rattle.model_run.specs.Terms.{nodes_of};
ghost use Rattle.model_run.specs.declared.frame.Frame.{Frame as Held};
ghost use Rattle.cps_code.specs.Script.{IsScript, script_of};
ghost use Rattle.frame_rows.specs.Leading.{spot_seen};
ghost use Rattle.image_frames.specs.Frames as frames;
ghost use Rattle.image_frames.specs.Leading.{enters_at, is_called_at, stands_at};

use cps_code::Code;
use frame_rows::{Spot, frame_kind, frame_row, left_at, may_be_called, may_stand, spot_in};
use image_form::ImageFrame;
use model_run::FrameKind;

/// Whether a frame may stand at a spot. Of one that has no kind, or no node of the script, nothing is said: it has a fault of
/// its own.
pub fn may_stand_at(code: &Code, frame: &ImageFrame, spot: Spot) -> bool
    ensures { result ≡ frames.may_stand_at (script_of code.now) frame.now (spot_seen spot) }
{
    match frame_kind(frame.kind) {
        Some(kind) if frame.node < code.len() => stands_at(code, kind, frame.node, spot),
        _ => true,
    }
}

/// Whether a frame of this kind at this node may stand at a spot, and its body may be called there.
fn stands_at(code: &Code, kind: FrameKind, node: u32, spot: Spot) -> bool
    requires script { IsScript (script_of code.now) }
    requires node { node < length (nodes_of (script_of code.now)) }
    ensures { (frame : Held) → frame.kind ≡ kind → frame.node ≡ node → result ≡ stands_at (script_of code.now) frame (spot_seen spot) }
{
    enters_at(code, kind, node, spot) && is_called_at(code, node, spot)
}

/// Whether a frame of this kind at this node may stand at a spot.
fn enters_at(code: &Code, kind: FrameKind, node: u32, spot: Spot) -> bool
    requires script { IsScript (script_of code.now) }
    requires node { node < length (nodes_of (script_of code.now)) }
    ensures { (frame : Held) → frame.kind ≡ kind → frame.node ≡ node → result ≡ enters_at (script_of code.now) frame (spot_seen spot) }
{
    may_stand(code, kind, node, spot)
}

/// Whether the body of a frame at this node may be called at a spot.
fn is_called_at(code: &Code, node: u32, spot: Spot) -> bool
    requires script { IsScript (script_of code.now) }
    requires node { node < length (nodes_of (script_of code.now)) }
    ensures { (frame : Held) → frame.node ≡ node → result ≡ is_called_at (script_of code.now) frame (spot_seen spot) }
{
    may_be_called(code, node, spot)
}

/// What stands directly inside a frame, and `None` exactly where it has no row.
pub fn spot_inside(code: &Code, frame: &ImageFrame) -> Option<Spot>
    ensures { option_map spot_seen result ≡ frames.spot_inside (script_of code.now) frame.now }
{
    let kind = frame_kind(frame.kind)?;
    if frame.node >= code.len() {
        return None;
    }
    let left = left_at(code, kind, frame.node, frame.at);
    let row = frame_row(code, kind, frame.node, left, &frame.env);
    if row.stands && left < row.limit && frame.at == row.done {
        Some(spot_in(code, frame.node, row.inside))
    } else {
        None
    }
}
