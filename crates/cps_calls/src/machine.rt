//! What the frames of calls go on with.

ghost use Rattle.std.specs.Prelude.{◌≡◌, true};
ghost use Rattle.cps_frames.specs.Places.{MayGoOn};
ghost use Rattle.cps_frames.specs.Standing.{standing};
ghost use Rattle.cps_calls.specs.Calls.{is_call_frame};
ghost use Rattle.cps_calls.specs.Turns.{GoesOnTo};

use crate::bodies::after_body;
use crate::walks::after_walk_turn;
use cps_frames::{Halt, Move, Shared, ThreadState};
use model_run::{Ending, Frame, FrameKind};

/// What a frame of a call goes on with, where what stood inside it has ended so: the body of a closure or a function, and a turn of
/// a walk. A walk goes into its next turn at once. `Halt::Ends` where its node ends so, `Halt::Limit` where a limit was met, and
/// `Halt::Memory` where the memory was refused.
pub fn go_on(
    state: &mut ThreadState,
    shared: &mut Shared,
    frame: Frame,
    ending: Ending,
) -> Result<Move, Halt>
    requires may { MayGoOn (standing shared.old state.old) frame ending }
    requires kind { is_call_frame frame.kind ≡ true }
    ensures { GoesOnTo frame ending (standing shared.old state.old) result (standing shared.new state.new) }
{
    match frame.kind {
        FrameKind::CallBody => Ok(after_body(state, ending)),
        FrameKind::WalkTurn => after_walk_turn(state, shared, frame, ending),
        _ => unreachable!(),
    }
}
