//! What is wrong with a frame.

ghost use Rattle.std.specs.Prelude.{◌≡◌, ◌<◌, [], true, length, slice_get};
ghost use Rattle.model_run.specs.Nesting.{row_at, shape_at};
ghost use Rattle.model_run.specs.Scoping.{frame_names, names_at, names_for};
ghost use Rattle.model_run.specs.Terms.{nodes_of};
ghost use Rattle.cps_code.specs.Script.{IsScript, script_of};
ghost use Rattle.frame_rows.specs.Rows.{row_seen};
ghost use Rattle.script_names.specs.Given.{are_named, given_of};
ghost use Rattle.image_frames.specs.Frames as frames;
ghost use Rattle.image_frames.specs.Frames.{has_row};
ghost use Rattle.image_frames.specs.Standings.{frame_in};

use crate::FrameFault;
use cps_code::Code;
use frame_rows::{Row, frame_kind, frame_row, left_at, values_fit};
use image_form::ImageFrame;
use model_run::FrameKind;
use model_values::Cell;
use script_names::{GivenNames, are_variables};

/// What the frames of an image are tested against.
#[derive(Drop)]
pub struct Table<'a> {
    /// The script.
    pub code: &'a Code,
    /// The names that its nodes are given.
    pub names: &'a GivenNames,
    /// The cells of the image.
    pub cells: &'a [Cell],
    /// How many flow nodes the image has.
    pub nodes: usize,
}

/// The first that is wrong with a frame, and `None` exactly where nothing is. `inside` says whether what stands directly
/// inside it fits. It takes no memory, and time linear in the frame and the number of names that it sees.
pub fn frame_fault(table: &Table<'_>, inside: bool, frame: &ImageFrame) -> Option<FrameFault>
    requires { table.now.names.now ≡ given_of [] (script_of table.now.code.now) }
    ensures { result ≡ frames.frame_fault (script_of table.now.code.now) table.now.cells.now table.now.nodes inside frame.now }
{
    let code = table.code;
    let kind = match frame_kind(frame.kind) {
        Some(kind) if inside => kind,
        _ => return Some(FrameFault::Kind),
    };
    if frame.node >= code.len() {
        return Some(FrameFault::Node);
    }
    let left = left_at(code, kind, frame.node, frame.at);
    let row = frame_row(code, kind, frame.node, left, &frame.env);
    if !row.stands {
        return Some(FrameFault::Node);
    }
    if left >= row.limit || frame.at != row.done {
        return Some(FrameFault::Place);
    }
    content_fault(table, kind, &row, frame)
}

/// The first that is wrong with what a frame that has a row holds.
fn content_fault(
    table: &Table<'_>,
    kind: FrameKind,
    row: &Row,
    frame: &ImageFrame,
) -> Option<FrameFault>
    requires given { table.now.names.now ≡ given_of [] (script_of table.now.code.now) }
    requires script { IsScript (script_of table.now.code.now) }
    requires kind { (frame_in (script_of table.now.code.now) frame.now).kind ≡ kind }
    requires row { row_seen row.now ≡ row_at (script_of table.now.code.now) (frame_in (script_of table.now.code.now) frame.now) }
    requires stands { has_row (script_of table.now.code.now) frame.now ≡ true }
    ensures { result ≡ frames.content_fault (script_of table.now.code.now) table.now.cells.now table.now.nodes frame.now }
{
    if !values_fit(table.cells, table.nodes, row, frame.values.as_slice()) {
        return Some(FrameFault::Values);
    }
    if !are_variables(table.cells, &frame.env) {
        return Some(FrameFault::Cell);
    }
    if !has_names(table, kind, frame) {
        return Some(FrameFault::Name);
    }
    None
}

/// Whether the names of a frame that has a row are those which its place sees.
fn has_names(table: &Table<'_>, kind: FrameKind, frame: &ImageFrame) -> bool
    requires given { table.now.names.now ≡ given_of [] (script_of table.now.code.now) }
    requires script { IsScript (script_of table.now.code.now) }
    requires kind { (frame_in (script_of table.now.code.now) frame.now).kind ≡ kind }
    requires stands { has_row (script_of table.now.code.now) frame.now ≡ true }
    ensures { result ≡ are_named (names_for (script_of table.now.code.now) (frame_in (script_of table.now.code.now) frame.now)) frame.now.env }
{
    let (code, names) = (table.code, table.names);
    match kind {
        FrameKind::Statement => names.are_seen_at(code, frame.node, frame.at, &frame.env),
        FrameKind::StepsTest | FrameKind::StepsBody | FrameKind::StepsNext => {
            names.are_seen_behind_first(code, frame.node, &frame.env)
        }
        _ => names.are_seen(code, frame.node, &frame.env),
    }
}
