//! `(e)`, and signs before an operand.

ghost use Rattle.std.specs.Prelude.{◌≡◌, ◌<◌, ◌^◌, ℕ, length, reverse};
ghost use Rattle.model_syntax.specs.declared.node.NodeForm.TheVariants as form;
ghost use Rattle.model_run.specs.Around.{arity};
ghost use Rattle.model_run.specs.Expressions.{group, prefixed, prefixed_by, prefixes_of};
ghost use Rattle.model_run.specs.Forms.{after};
ghost use Rattle.model_run.specs.Nesting.{shape_at};
ghost use Rattle.model_run.specs.Terms.{nodes_of};
ghost use Rattle.cps_code.specs.Script.{script_of};
ghost use Rattle.cps_frames.specs.Moves.{ComesTo};
ghost use Rattle.cps_frames.specs.Order.{rank};
ghost use Rattle.cps_frames.specs.Places.{MayGoOn};
ghost use Rattle.cps_frames.specs.Standing.{standing};

use crate::moves::counted_value;
use crate::operations::apply_prefix;
use crate::parts::{arity, part_form};
use cps_frames::{Halt, Move, Shared, ThreadState, inside, tick};
use model_run::{Ending, Entry, Frame, FrameKind};
use model_syntax::NodeForm;
use model_values::{Env, Value};

/// `(e)`
pub fn group(state: &mut ThreadState, shared: &Shared, node: u32, env: Env) -> Result<Move, Halt>
    requires node { node < length (nodes_of (script_of shared.now.code)) }
    requires part { 0 < arity (shape_at (script_of shared.now.code) node) }
    ensures { ComesTo node (2 ^ 66) (λ sh a. group a node env) (standing shared.now state.old) result (standing shared.now state.new) }
{
    inside(
        state,
        shared,
        FrameKind::GroupValue,
        node,
        0,
        env,
        Entry::First,
        0,
    )
}

/// Behind the expression in parentheses, which counts.
pub fn group_value(
    state: &mut ThreadState,
    shared: &mut Shared,
    frame: Frame,
    value: Value,
) -> Result<Move, Halt>
    requires kind { frame.kind ≡ FrameKind.GroupValue }
    ensures { ComesTo frame.node (rank frame) (λ sh a. after frame sh a (Ending.Normal value)) (standing shared.old state.old) result (standing shared.new state.new) }
{
    counted_value(shared, value)
}

/// Signs before an operand: first the operand.
pub fn prefixed(state: &mut ThreadState, shared: &Shared, node: u32, env: Env) -> Result<Move, Halt>
    requires node { node < length (nodes_of (script_of shared.now.code)) }
    requires part { 0 < arity (shape_at (script_of shared.now.code) node) }
    ensures { ComesTo node (2 ^ 66) (λ sh a. prefixed a node sh env) (standing shared.now state.old) result (standing shared.now state.new) }
{
    let at = arity(&shared.code, node) - 1;
    inside(
        state,
        shared,
        FrameKind::PrefixedOperand,
        node,
        0,
        env,
        Entry::First,
        at,
    )
}

/// Behind the operand: the signs before it, the nearest first.
pub fn prefixed_operand(
    state: &mut ThreadState,
    shared: &mut Shared,
    frame: Frame,
    value: Value,
) -> Result<Move, Halt>
    requires may { MayGoOn (standing shared.old state.old) frame (Ending.Normal value) }
    requires kind { frame.kind ≡ FrameKind.PrefixedOperand }
    ensures { ComesTo frame.node (rank frame) (λ sh a. after frame sh a (Ending.Normal value)) (standing shared.old state.old) result (standing shared.new state.new) }
{
    let mut value = value;
    for at in (0..arity(&shared.code, frame.node)).rev() {
        if let NodeForm::Prefix(prefix) = part_form(&shared.code, frame.node, at) {
            let prefix = *prefix;
            tick(shared)?;
            value = apply_prefix(shared, prefix, &value)?;
        }
    }
    Ok(Move::Ends(Ending::Normal(value)))
}
