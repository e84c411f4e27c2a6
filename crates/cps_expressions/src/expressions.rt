//! Expressions by their forms, and their frames by their kinds.

ghost use Rattle.std.specs.Prelude.{◌≡◌, ◌<◌, ◌^◌, ℕ, true, length};
ghost use Rattle.model_run.specs.Forms.{after, gather_all, start, suffix_on};
ghost use Rattle.model_run.specs.FrameTable.{gathers};
ghost use Rattle.model_run.specs.Nesting.{shape_at};
ghost use Rattle.script_laws.specs.NodeParts.{is_expression};
ghost use Rattle.cps_code.specs.Script.{script_of};
ghost use Rattle.cps_frames.specs.Moves.{ComesTo};
ghost use Rattle.cps_frames.specs.Order.{rank};
ghost use Rattle.cps_frames.specs.Places.{MayEnter, MayGoOn};
ghost use Rattle.cps_frames.specs.Standing.{standing};
ghost use Rattle.cps_expressions.specs.Frames.{is_expression_frame};

use crate::gathering::{call, gather_all, gathered_key, gathered_value, method};
use cps_frames::{Halt, Move, Shared, ThreadState, value_of};
use cps_operators::{
    chain, chain_operand, chosen, chosen_test, counted_value, group, group_value, index_value,
    indexed, joined_all, joined_first, joined_operand, prefixed, prefixed_operand, property,
    suffixed_all, suffixed_part,
};
use cps_values::{closure, literal, variable};
use model_run::{Ending, Entry, Frame, FrameKind};
use model_syntax::NodeForm;
use model_values::{Env, Value};

/// An expression from its beginning.
pub fn start(
    state: &mut ThreadState,
    shared: &mut Shared,
    node: u32,
    env: Env,
) -> Result<Move, Halt>
    requires may { MayEnter (standing shared.old state.old) Entry.First node env }
    requires form { is_expression (shape_at (script_of shared.old.code) node).form ≡ true }
    ensures { ComesTo node (2 ^ 66) (λ sh a. start a node sh env sh.form) (standing shared.old state.old) result (standing shared.new state.new) }
{
    match shared.code.kind(node) {
        NodeForm::Number(number) => {
            let number = *number;
            counted_value(shared, Value::Int(number))
        }
        NodeForm::Literal(text) => {
            let text = text.clone()?;
            literal(state, shared, text)
        }
        NodeForm::True => counted_value(shared, Value::Bool(true)),
        NodeForm::False => counted_value(shared, Value::Bool(false)),
        NodeForm::Null => counted_value(shared, Value::Null),
        NodeForm::Variable(_) => variable(state, shared, node, &env),
        NodeForm::Closure(_) => closure(state, shared, node, env),
        NodeForm::Call(_) => call(state, shared, node, env),
        NodeForm::List => gather_all(state, shared, node, env),
        NodeForm::Map => gather_all(state, shared, node, env),
        NodeForm::GString => gather_all(state, shared, node, env),
        NodeForm::New(_) => gather_all(state, shared, node, env),
        NodeForm::Group => group(state, shared, node, env),
        NodeForm::Suffixed => suffixed_all(state, shared, node, env),
        NodeForm::Prefixed => prefixed(state, shared, node, env),
        NodeForm::Joined => joined_all(state, shared, node, env),
        NodeForm::And => chain(state, shared, node, env),
        NodeForm::Or => chain(state, shared, node, env),
        NodeForm::Chosen => chosen(state, shared, node, env),
        _ => unreachable!(),
    }
}

/// A suffix, on the value before it. A node that is none does nothing.
pub fn suffix(
    state: &mut ThreadState,
    shared: &mut Shared,
    node: u32,
    env: Env,
    value: Value,
) -> Result<Move, Halt>
    requires may { MayEnter (standing shared.old state.old) (Entry.On value) node env }
    ensures { ComesTo node (2 ^ 66) (λ sh a. suffix_on a node sh env value sh.form) (standing shared.old state.old) result (standing shared.new state.new) }
{
    match shared.code.kind(node) {
        NodeForm::Property(_, _) => property(state, shared, node, value),
        NodeForm::Method(_, _) => method(state, shared, node, env, value),
        NodeForm::Index => indexed(state, shared, node, env, value),
        _ => Ok(Move::Ends(Ending::Normal(Value::Null))),
    }
}

/// Behind a part of an expression, which has ended so. What is no value ends the expression too.
pub fn go_on(
    state: &mut ThreadState,
    shared: &mut Shared,
    frame: Frame,
    ending: Ending,
) -> Result<Move, Halt>
    requires may { MayGoOn (standing shared.old state.old) frame ending }
    requires kind { is_expression_frame frame.kind ≡ true }
    ensures { ComesTo frame.node (rank frame) (λ sh a. after frame sh a ending) (standing shared.old state.old) result (standing shared.new state.new) }
{
    let value = value_of(ending)?;
    match frame.kind {
        FrameKind::Gathered => gathered_value(state, shared, frame, value),
        FrameKind::GatheredKey => gathered_key(state, shared, frame, value),
        FrameKind::GroupValue => group_value(state, shared, frame, value),
        FrameKind::ChosenTest => chosen_test(state, shared, frame, value),
        FrameKind::ChainOperand => chain_operand(state, shared, frame, value),
        FrameKind::JoinedFirst => joined_first(state, shared, frame, value),
        FrameKind::JoinedOperand => joined_operand(state, shared, frame, value),
        FrameKind::PrefixedOperand => prefixed_operand(state, shared, frame, value),
        FrameKind::SuffixedPart => suffixed_part(state, shared, frame, value),
        FrameKind::IndexValue => index_value(state, shared, frame, value),
        _ => unreachable!(),
    }
}
