//! Operands of one rank with operators between them.

ghost use Rattle.std.specs.Prelude.{◌≡◌, ◌<◌, ◌≤◌, ◌+◌, ◌^◌, ℕ, true, length};
ghost use Rattle.model_run.specs.Around.{arity, form_at};
ghost use Rattle.model_run.specs.Expressions.{joined, joined_all, operator_of};
ghost use Rattle.model_run.specs.Forms.{after};
ghost use Rattle.model_run.specs.Nesting.{shape_at};
ghost use Rattle.model_run.specs.Terms.{nodes_of};
ghost use Rattle.script_laws.specs.NodeParts.{is_operand};
ghost use Rattle.cps_code.specs.Script.{script_of};
ghost use Rattle.cps_frames.specs.Moves.{ComesTo};
ghost use Rattle.cps_frames.specs.Order.{rank};
ghost use Rattle.cps_frames.specs.Places.{MayGoOn};
ghost use Rattle.cps_frames.specs.Standing.{standing};

use crate::moves::inside_with;
use crate::operations::apply_operator;
use crate::parts::{arity, current, part_form};
use cps_code::Code;
use cps_frames::{Halt, Move, Shared, ThreadState, inside, tick};
use model_run::{Ending, Entry, Frame, FrameKind};
use model_syntax::{NodeForm, Operator};
use model_values::{Env, Value, Values};

/// Operands with operators between them: first the first one.
pub fn joined_all(
    state: &mut ThreadState,
    shared: &Shared,
    node: u32,
    env: Env,
) -> Result<Move, Halt>
    requires node { node < length (nodes_of (script_of shared.now.code)) }
    requires part { 0 < arity (shape_at (script_of shared.now.code) node) }
    ensures { ComesTo node (2 ^ 66) (λ sh a. joined_all a node sh env) (standing shared.now state.old) result (standing shared.now state.new) }
{
    inside(
        state,
        shared,
        FrameKind::JoinedFirst,
        node,
        0,
        env,
        Entry::First,
        0,
    )
}

/// The last `left` operands, behind the value of those before them.
fn joined(
    state: &mut ThreadState,
    shared: &Shared,
    node: u32,
    env: Env,
    left: u32,
    value: Value,
) -> Result<Move, Halt>
    requires node { node < length (nodes_of (script_of shared.now.code)) }
    requires left { left ≤ arity (shape_at (script_of shared.now.code) node) }
    ensures { (r : ℕ) → left + left < r → ComesTo node r (λ sh a. joined a node sh env left value) (standing shared.now state.old) result (standing shared.now state.new) }
{
    if left == 0 {
        return Ok(Move::Ends(Ending::Normal(value)));
    }
    let at = current(&shared.code, node, left - 1);
    let kept = Values::from_slice(shared.alloc(), &[value])?;
    inside_with(
        state,
        shared,
        FrameKind::JoinedOperand,
        node,
        left - 1,
        env,
        kept,
        Entry::Inside(0),
        at,
    )
}

/// Behind the first operand.
pub fn joined_first(
    state: &mut ThreadState,
    shared: &mut Shared,
    frame: Frame,
    value: Value,
) -> Result<Move, Halt>
    requires may { MayGoOn (standing shared.old state.old) frame (Ending.Normal value) }
    requires kind { frame.kind ≡ FrameKind.JoinedFirst }
    ensures { ComesTo frame.node (rank frame) (λ sh a. after frame sh a (Ending.Normal value)) (standing shared.old state.old) result (standing shared.new state.new) }
{
    let left = arity(&shared.code, frame.node) - 1;
    joined(state, shared, frame.node, frame.env, left, value)
}

/// Behind a further operand: its operator is applied, which counts.
pub fn joined_operand(
    state: &mut ThreadState,
    shared: &mut Shared,
    frame: Frame,
    value: Value,
) -> Result<Move, Halt>
    requires may { MayGoOn (standing shared.old state.old) frame (Ending.Normal value) }
    requires kind { frame.kind ≡ FrameKind.JoinedOperand }
    ensures { ComesTo frame.node (rank frame) (λ sh a. after frame sh a (Ending.Normal value)) (standing shared.old state.old) result (standing shared.new state.new) }
{
    let at = current(&shared.code, frame.node, frame.left);
    let operator = operator_at(&shared.code, frame.node, at);
    let left = frame.values.as_slice()[0];
    tick(shared)?;
    let joint = apply_operator(shared, operator, &left, &value)?;
    joined(state, shared, frame.node, frame.env, frame.left, joint)
}

/// The operator before part `at` of a node, which is an operand.
fn operator_at(code: &Code, node: u32, at: u32) -> Operator
    requires node { node < length (nodes_of (script_of code.now)) }
    requires part { at < arity (shape_at (script_of code.now) node) }
    requires operand { is_operand (form_at (shape_at (script_of code.now) node).parts at) ≡ true }
    ensures { result ≡ operator_of (form_at (shape_at (script_of code.now) node).parts at) }
{
    match part_form(code, node, at) {
        NodeForm::Operand(operator) => *operator,
        _ => unreachable!(),
    }
}
