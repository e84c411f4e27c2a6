//! `stage`, and the end of every step with a body.

ghost use Rattle.std.specs.Prelude.{◌≡◌, ℕ, ◌<◌, codes};
ghost use Rattle.model_values.specs.Fitting.{HasClosure, IsIn};
ghost use Rattle.model_run.specs.Around.{ended};
ghost use Rattle.model_run.specs.Callables.{calling, closure_of};
ghost use Rattle.model_run.specs.FlowNodes.{block, end_block};
ghost use Rattle.model_run.specs.State.{Ended, seeing};
ghost use Rattle.model_run.specs.Steps.{stage_body};
ghost use Rattle.model_values.specs.declared.value.Value.TheVariants.{Null};
ghost use Rattle.model_run.specs.declared.frame.FrameKind.TheVariants as kind;
ghost use Rattle.model_run.specs.Forms.{after};
ghost use Rattle.cps_frames.specs.Moves.{ComesTo};
ghost use Rattle.cps_frames.specs.Order.{rank};
ghost use Rattle.cps_frames.specs.Places.{MayGoOn};
ghost use Rattle.cps_frames.specs.Standing.{standing};

use crate::bodies::{callee_of, number_at, starts};
use cps_frames::{Halt, Move, Shared, ThreadState, end_block, end_body, note_block, run_body};
use model_run::{Ending, Frame, FrameKind};
use model_values::{Env, Value};

/// `stage`: a block under a name.
pub(crate) fn stage(
    state: &mut ThreadState,
    shared: &mut Shared,
    node: u32,
    env: Env,
    name: &[u8],
    body: &Value,
) -> Result<Move, Halt>
    requires body { IsIn HasClosure shared.old.heap.cells body.now }
    ensures { (r : ℕ) → 0 < r → ComesTo node r (λ sh a. block (codes "stage") (seeing (λ u. calling (closure_of u body.now) (ended Null) (stage_body a node env name.now u)))) (standing shared.old state.old) result (standing shared.new state.new) }
{
    note_block(state, shared, b"stage")?;
    let callee = callee_of(&shared.heap, body)?;
    let values = starts(state, shared)?;
    let frame = Frame {
        kind: FrameKind::StageBody,
        node,
        left: 0,
        env,
        values,
    };
    run_body(state, shared, frame, name, callee)
}

/// The body of `stage` has ended.
pub(crate) fn stage_body(
    state: &mut ThreadState,
    shared: &mut Shared,
    frame: Frame,
    ending: Ending,
) -> Result<Move, Halt>
    requires may { MayGoOn (standing shared.old state.old) frame ending }
    requires kind { frame.kind ≡ kind.StageBody }
    ensures { ComesTo frame.node (rank frame) (λ sh a. after frame sh a ending) (standing shared.old state.old) result (standing shared.new state.new) }
{
    end_body(state, shared, number_at(&frame.values, 1))?;
    close(state, shared, b"stage", number_at(&frame.values, 0), ending)
}

/// The end of the step of this name that began at the node `start`, which ends so.
pub(crate) fn close(
    state: &mut ThreadState,
    shared: &mut Shared,
    name: &[u8],
    start: u32,
    ending: Ending,
) -> Result<Move, Halt>
    ensures { (k r : ℕ) → 0 < r → ComesTo k r (λ sh a. end_block name.now start (Ended ending)) (standing shared.old state.old) result (standing shared.new state.new) }
{
    end_block(state, shared, name, start)?;
    Ok(Move::Ends(ending))
}
