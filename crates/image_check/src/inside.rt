//! The frames of a thread, and what stands inside the last.

ghost use Rattle.std.specs.Prelude.{◌≡◌, [], true, length, map};
ghost use Rattle.std.specs.Option.{option_copied};
ghost use Rattle.model_run.specs.Fitting.{Rises};
ghost use Rattle.cps_code.specs.Script.{script_of};
ghost use Rattle.frame_rows.specs.Leading.{spot_seen};
ghost use Rattle.script_names.specs.Given.{given_of};
ghost use Rattle.image_frames.specs.Frames.{spot_inside};
ghost use Rattle.image_check.specs.Findings.{in_frame};
ghost use Rattle.image_check.specs.Scans.{none_or};
ghost use Rattle.image_check.specs.Threads.{check_of, fault_at, frames_fault, is_for_branches, may_be_asked, may_wait, next_fits};

use crate::threads::{Lists, asked};
use crate::{CheckKind, Finding};
use cps_code::Code;
use frame_rows::{Spot, may_ask};
use image_form::{ImageFrame, ImageThread};
use image_frames::{FrameFault, Table, frame_fault, may_stand_at, spot_inside};
use model_run::{OpenRequest, Wait};

/// The first fault of the frames of a thread, the outermost first.
pub(crate) fn frames_fault(
    lists: &Lists<'_>,
    table: &Table<'_>,
    thread: &ImageThread,
) -> Option<Finding>
    requires rise { lists.now.requests_rise ≡ true → Rises (map (λ r. r.number) lists.now.image.now.requests) }
    requires given { table.now.names.now ≡ given_of [] (script_of table.now.code.now) }
    requires cells { table.now.cells.now ≡ lists.now.image.now.cells }
    requires nodes { table.now.nodes ≡ length lists.now.image.now.nodes }
    ensures { result ≡ frames_fault (script_of table.now.code.now) lists.now.image.now thread.now 0 thread.now.frames }
{
    let frames = thread.frames.as_slice();
    for (place, frame) in frames.iter().enumerate() {
        let (_, behind) = frames.split_at(place + 1);
        let found = fault_at(lists, table, thread, place, frame, behind);
        if found.is_some() {
            return found;
        }
    }
    None
}

/// The first fault of the frame at a place of a thread, with the frames behind it.
fn fault_at(
    lists: &Lists<'_>,
    table: &Table<'_>,
    thread: &ImageThread,
    place: usize,
    frame: &ImageFrame,
    behind: &[ImageFrame],
) -> Option<Finding>
    requires rise { lists.now.requests_rise ≡ true → Rises (map (λ r. r.number) lists.now.image.now.requests) }
    requires given { table.now.names.now ≡ given_of [] (script_of table.now.code.now) }
    requires cells { table.now.cells.now ≡ lists.now.image.now.cells }
    requires nodes { table.now.nodes ≡ length lists.now.image.now.nodes }
    ensures { result ≡ fault_at (script_of table.now.code.now) lists.now.image.now thread.now place frame.now behind.now }
{
    let inside = inside_fits(lists, table.code, &thread.wait, frame, behind);
    let fault = frame_fault(table, inside, frame)?;
    Some(in_frame(thread.number, place, check_of(fault)))
}

/// Whether what stands directly inside a frame may stand there: the next frame, or the wait. Where the frame has no row,
/// nothing is said.
fn inside_fits(
    lists: &Lists<'_>,
    code: &Code,
    wait: &Wait,
    frame: &ImageFrame,
    behind: &[ImageFrame],
) -> bool
    requires { lists.now.requests_rise ≡ true → Rises (map (λ r. r.number) lists.now.image.now.requests) }
    ensures { result ≡ none_or (next_fits (script_of code.now) lists.now.image.now wait.now behind.now) (spot_inside (script_of code.now) frame.now) }
{
    match spot_inside(code, frame) {
        Some(spot) => next_fits(lists, code, wait, behind, spot),
        None => true,
    }
}

/// Whether the next frame, or the wait where there is none, may stand at a spot.
fn next_fits(lists: &Lists<'_>, code: &Code, wait: &Wait, behind: &[ImageFrame], spot: Spot) -> bool
    requires { lists.now.requests_rise ≡ true → Rises (map (λ r. r.number) lists.now.image.now.requests) }
    ensures { result ≡ next_fits (script_of code.now) lists.now.image.now wait.now behind.now (spot_seen spot) }
{
    match behind {
        [next, ..] => may_stand_at(code, next, spot),
        [] => may_wait(lists, wait, spot),
    }
}

/// Whether a thread may wait so at a spot.
fn may_wait(lists: &Lists<'_>, wait: &Wait, spot: Spot) -> bool
    requires { lists.now.requests_rise ≡ true → Rises (map (λ r. r.number) lists.now.image.now.requests) }
    ensures { result ≡ may_wait lists.now.image.now wait.now (spot_seen spot) }
{
    match wait {
        Wait::Request(request) => may_be_asked(spot, asked(lists, *request)),
        Wait::Branches(_) => is_for_branches(spot),
        Wait::Ready(_) => true,
    }
}

/// Whether this request may be waited for at a spot. Of none nothing is said.
fn may_be_asked(spot: Spot, request: Option<&OpenRequest>) -> bool
    ensures { result ≡ may_be_asked (spot_seen spot) (option_copied request.entry) }
{
    match request {
        Some(request) => may_ask(spot, &request.request),
        None => true,
    }
}

fn is_for_branches(spot: Spot) -> bool
    ensures { result ≡ is_for_branches (spot_seen spot) }
{
    matches!(spot, Spot::Branches)
}

/// The kind of a frame's fault.
fn check_of(fault: FrameFault) -> CheckKind
    ensures { result ≡ check_of fault }
{
    match fault {
        FrameFault::Kind => CheckKind::Kind,
        FrameFault::Node => CheckKind::Node,
        FrameFault::Place => CheckKind::At,
        FrameFault::Values => CheckKind::Values,
        FrameFault::Cell => CheckKind::MissingCell,
        FrameFault::Name => CheckKind::Name,
    }
}

/// A fault of a frame, by its number; from the 4,294,967,295th frame on the number stands still.
fn in_frame(thread: u32, place: usize, kind: CheckKind) -> Finding
    ensures { result ≡ in_frame thread place kind }
{
    let frame = if place < 4294967295 {
        place as u32
    } else {
        u32::MAX
    };
    Finding {
        thread,
        frame,
        kind,
    }
}
