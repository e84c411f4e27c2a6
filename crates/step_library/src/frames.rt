//! How each frame of a step goes on.

ghost use Rattle.std.specs.Prelude.{◌≡◌, true};
ghost use Rattle.model_run.specs.Forms.{after};
ghost use Rattle.cps_frames.specs.Moves.{ComesTo};
ghost use Rattle.cps_frames.specs.Order.{rank};
ghost use Rattle.cps_frames.specs.Places.{MayGoOn};
ghost use Rattle.cps_frames.specs.Standing.{standing};
ghost use Rattle.step_library.specs.StepFrames.{is_step_frame};

use crate::blocks::stage_body;
use crate::branches::branch_body;
use crate::catch_error::catch_error_body;
use crate::input::input_wait;
use crate::nodes::{node_body, node_wait};
use crate::parallel::parallel_wait;
use crate::retry::retry_body;
use crate::settings::{dir_body, with_env_body};
use crate::shell::sh_wait;
use cps_frames::{Halt, Move, Shared, ThreadState};
use model_run::{Ending, Frame, FrameKind};

/// A frame of a step goes on, behind what stood inside it.
///
/// # Errors
///
/// As every function of the machine: `Halt::Limit` where the build meets a limit, which ends it, and `Halt::Memory` where
/// the memory was refused.
pub fn go_on(
    state: &mut ThreadState,
    shared: &mut Shared,
    frame: Frame,
    ending: Ending,
) -> Result<Move, Halt>
    requires may { MayGoOn (standing shared.old state.old) frame ending }
    requires kind { is_step_frame frame.kind ≡ true }
    ensures { ComesTo frame.node (rank frame) (λ sh a. after frame sh a ending) (standing shared.old state.old) result (standing shared.new state.new) }
{
    match frame.kind {
        FrameKind::StageBody => stage_body(state, shared, frame, ending),
        FrameKind::CatchErrorBody => catch_error_body(state, shared, frame, ending),
        FrameKind::RetryBody => retry_body(state, shared, frame, ending),
        FrameKind::NodeWait => node_wait(state, shared, frame, ending),
        FrameKind::NodeBody => node_body(state, shared, frame, ending),
        FrameKind::DirBody => dir_body(state, shared, frame, ending),
        FrameKind::WithEnvBody => with_env_body(state, shared, frame, ending),
        FrameKind::ShWait => sh_wait(state, shared, &frame, ending),
        FrameKind::InputWait => input_wait(state, shared, &frame, ending),
        FrameKind::ParallelWait => parallel_wait(state, shared, frame, ending),
        FrameKind::BranchBody => branch_body(state, shared, frame, ending),
        _ => unreachable!(),
    }
}
