//! `if`.

ghost use Rattle.std.specs.Prelude.{◌≡◌, ◌<◌, ◌≤◌, ◌+◌, ℕ};
ghost use Rattle.model_syntax.specs.declared.node.NodeForm.TheVariants as form;
ghost use Rattle.model_run.specs.Around.{arity};
ghost use Rattle.model_run.specs.Forms.{after};
ghost use Rattle.model_run.specs.Nesting.{shape_at};
ghost use Rattle.model_run.specs.Statements.{arms};
ghost use Rattle.model_run.specs.declared.frame.FrameKind.TheVariants as kind;
ghost use Rattle.cps_code.specs.Script.{script_of};
ghost use Rattle.cps_frames.specs.Moves.{ComesTo};
ghost use Rattle.cps_frames.specs.Order.{rank};
ghost use Rattle.cps_frames.specs.Places.{MayGoOn};
ghost use Rattle.cps_frames.specs.Standing.{standing};
ghost use Rattle.cps_variables.specs.Nodes.{HasForm};

use cps_frames::{Halt, Move, Shared, ThreadState, inside, part, value_of};
use cps_variables::part_form;
use model_run::{Ending, Entry, Frame, FrameKind};
use model_syntax::NodeForm;
use model_values::{Env, Value};
use value_view::truth;

/// The last `left` parts of an `if`: arms, and behind them a block at most.
pub(crate) fn arms(
    state: &mut ThreadState,
    shared: &Shared,
    node: u32,
    left: u32,
    env: Env,
) -> Result<Move, Halt>
    requires form { HasForm (script_of shared.now.code) node form.If }
    requires left { left ≤ arity (shape_at (script_of shared.now.code) node) }
    ensures { (r : ℕ) → left + left < r → ComesTo node r (λ sh a. arms a node sh left env) (standing shared.now state.old) result (standing shared.now state.new) }
{
    if left == 0 {
        return Ok(Move::Ends(Ending::Normal(Value::Null)));
    }
    let at = shared.code.parts(node) - left;
    match part_form(&shared.code, node, at) {
        NodeForm::Arm => {
            let entry = Entry::Inside(0);
            inside(
                state,
                shared,
                FrameKind::IfTest,
                node,
                left - 1,
                env,
                entry,
                at,
            )
        }
        NodeForm::Block => Ok(part(shared, node, Entry::First, at, env)),
        _ => unreachable!(),
    }
}

/// Behind the test of an arm: its block where the test is true, else the parts behind it.
pub(crate) fn after_if_test(
    state: &mut ThreadState,
    shared: &Shared,
    frame: Frame,
    ending: Ending,
) -> Result<Move, Halt>
    requires may { MayGoOn (standing shared.now state.old) frame ending }
    requires kind { frame.kind ≡ kind.IfTest }
    ensures { ComesTo frame.node (rank frame) (λ sh a. after frame sh a ending) (standing shared.now state.old) result (standing shared.now state.new) }
{
    let test = value_of(ending)?;
    if truth(&shared.heap, &test) {
        let at = shared.code.parts(frame.node) - 1 - frame.left;
        Ok(part(shared, frame.node, Entry::Inside(1), at, frame.env))
    } else {
        arms(state, shared, frame.node, frame.left, frame.env)
    }
}
