//! `&&` and `||`.

ghost use Rattle.std.specs.Prelude.{◌≡◌, ◌<◌, ◌≤◌, ◌+◌, ◌^◌, ℕ, length};
ghost use Rattle.model_run.specs.Around.{arity};
ghost use Rattle.model_run.specs.Expressions.{is_and, operands};
ghost use Rattle.model_run.specs.Forms.{after};
ghost use Rattle.model_run.specs.Nesting.{shape_at};
ghost use Rattle.model_run.specs.Terms.{nodes_of};
ghost use Rattle.cps_code.specs.Script.{script_of};
ghost use Rattle.cps_frames.specs.Moves.{ComesTo};
ghost use Rattle.cps_frames.specs.Order.{rank};
ghost use Rattle.cps_frames.specs.Places.{MayGoOn};
ghost use Rattle.cps_frames.specs.Standing.{standing};

use crate::moves::counted_truth;
use crate::parts::{arity, current};
use cps_frames::{Halt, Move, Shared, ThreadState, inside};
use model_run::{Ending, Entry, Frame, FrameKind};
use model_syntax::NodeForm;
use model_values::{Env, Value};
use value_view::truth;

/// Operands with `&&` or `||` between them. A chain of no operands, as which no script is read, gives null.
pub fn chain(state: &mut ThreadState, shared: &Shared, node: u32, env: Env) -> Result<Move, Halt>
    requires { node < length (nodes_of (script_of shared.now.code)) }
    ensures { ComesTo node (2 ^ 66) (λ sh a. operands a node sh env (arity sh)) (standing shared.now state.old) result (standing shared.now state.new) }
{
    let left = arity(&shared.code, node);
    if left == 0 {
        return Ok(Move::Ends(Ending::Normal(Value::Null)));
    }
    operands(state, shared, node, env, left)
}

/// The last `left` of the operands, of which there is one at least.
fn operands(
    state: &mut ThreadState,
    shared: &Shared,
    node: u32,
    env: Env,
    left: u32,
) -> Result<Move, Halt>
    requires node { node < length (nodes_of (script_of shared.now.code)) }
    requires some { 0 < left }
    requires left { left ≤ arity (shape_at (script_of shared.now.code) node) }
    ensures { (r : ℕ) → left + left < r → ComesTo node r (λ sh a. operands a node sh env left) (standing shared.now state.old) result (standing shared.now state.new) }
{
    let at = current(&shared.code, node, left - 1);
    inside(
        state,
        shared,
        FrameKind::ChainOperand,
        node,
        left - 1,
        env,
        Entry::First,
        at,
    )
}

/// Behind an operand: the rest is passed over where it decides, and the last one gives its truth.
pub fn chain_operand(
    state: &mut ThreadState,
    shared: &mut Shared,
    frame: Frame,
    value: Value,
) -> Result<Move, Halt>
    requires may { MayGoOn (standing shared.old state.old) frame (Ending.Normal value) }
    requires kind { frame.kind ≡ FrameKind.ChainOperand }
    ensures { ComesTo frame.node (rank frame) (λ sh a. after frame sh a (Ending.Normal value)) (standing shared.old state.old) result (standing shared.new state.new) }
{
    if frame.left == 0 {
        let holds = truth(&shared.heap, &value);
        return Ok(Move::Ends(Ending::Normal(Value::Bool(holds))));
    }
    let is_and = is_and(shared.code.kind(frame.node));
    let holds = counted_truth(state, shared, &value)?;
    if holds == is_and {
        operands(state, shared, frame.node, frame.env, frame.left)
    } else {
        Ok(Move::Ends(Ending::Normal(Value::Bool(holds))))
    }
}

/// Whether all operands have to be true.
pub(crate) fn is_and(form: &NodeForm) -> bool
    ensures { result ≡ is_and form.now }
{
    matches!(form, NodeForm::And)
}
