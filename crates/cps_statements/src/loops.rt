//! `while`.

ghost use Rattle.std.specs.Prelude.{◌≡◌, ◌<◌, ◌+◌, ◌^◌, ℕ, true};
ghost use Rattle.model_syntax.specs.declared.node.NodeForm.TheVariants as form;
ghost use Rattle.model_run.specs.Forms.{after};
ghost use Rattle.model_run.specs.Statements.{after_test, while_test, while_turn};
ghost use Rattle.model_run.specs.declared.frame.FrameKind.TheVariants as kind;
ghost use Rattle.cps_code.specs.Script.{script_of};
ghost use Rattle.cps_frames.specs.Moves.{ComesTo};
ghost use Rattle.cps_frames.specs.Order.{rank};
ghost use Rattle.cps_frames.specs.Places.{MayGoOn};
ghost use Rattle.cps_frames.specs.Standing.{standing};
ghost use Rattle.cps_frames.specs.Ways.{is_block_ending};
ghost use Rattle.cps_frames.specs.declared.thread.ThreadState.{ThreadState as Thread};
ghost use Rattle.cps_variables.specs.Nodes.{HasForm};

use cps_frames::{Halt, Move, Shared, ThreadState, inside, turn, turn_of, value_of};
use model_run::{Ending, Entry, Frame, FrameKind};
use model_values::{Env, Value, Values};
use value_view::truth;

/// The test of `while`.
pub(crate) fn while_test(
    state: &mut ThreadState,
    shared: &Shared,
    node: u32,
    env: Env,
) -> Result<Move, Halt>
    requires { HasForm (script_of shared.now.code) node form.While }
    ensures { (r : ℕ) → 1 < r → ComesTo node r (λ sh a. while_test a node env) (standing shared.now state.old) result (standing shared.now state.new) }
{
    inside(
        state,
        shared,
        FrameKind::WhileTest,
        node,
        0,
        env,
        Entry::First,
        0,
    )
}

/// The block of `while`, in a turn of it.
pub(crate) fn while_turn(
    state: &mut ThreadState,
    shared: &Shared,
    node: u32,
    env: Env,
) -> Result<Move, Halt>
    requires { HasForm (script_of shared.now.code) node form.While }
    ensures { (r : ℕ) → 2 ^ 34 + 1 < r → ComesTo node r (λ sh a. while_turn a node env) (standing shared.now state.old) result (standing shared.now state.new) }
{
    inside(
        state,
        shared,
        FrameKind::WhileBody,
        node,
        0,
        env,
        Entry::First,
        1,
    )
}

/// Behind the test of a loop at this node: a turn where it is true, which is counted, else the loop has ended.
pub(crate) fn after_test(
    state: &ThreadState,
    shared: &mut Shared,
    frame: Frame,
    ending: Ending,
) -> Result<Move, Halt>
    requires may { MayGoOn (standing shared.old state.now) frame ending }
    requires ending { is_block_ending ending ≡ true }
    ensures { (r : ℕ) → 0 < r → ComesTo frame.node r (λ sh a. after_test a frame.env ending) (standing shared.old state.now) result (standing shared.new state.now) }
{
    let test = value_of(ending)?;
    if truth(&shared.heap, &test) {
        let kept = Values::new(shared.alloc());
        turn(shared, frame.node, 0, kept, frame.env)
    } else {
        Ok(Move::Ends(Ending::Normal(Value::Null)))
    }
}

/// Behind the block of `while`: its test again, unless the block has left the loop.
pub(crate) fn after_while_body(
    state: &mut ThreadState,
    shared: &Shared,
    frame: Frame,
    ending: Ending,
) -> Result<Move, Halt>
    requires may { MayGoOn (standing shared.now state.old) frame ending }
    requires kind { frame.kind ≡ kind.WhileBody }
    ensures { ComesTo frame.node (rank frame) (λ sh a. after frame sh a ending) (standing shared.now state.old) result (standing shared.now state.new) }
{
    turn_of(ending)?;
    while_test(state, shared, frame.node, frame.env)
}
