//! `test ? value : other` and `value ?: other`.

ghost use Rattle.std.specs.Prelude.{◌≡◌, ◌<◌, ◌≤◌, ◌+◌, ◌^◌, ℕ, length};
ghost use Rattle.model_run.specs.Around.{arity};
ghost use Rattle.model_run.specs.Expressions.{choices};
ghost use Rattle.model_run.specs.Forms.{after};
ghost use Rattle.model_run.specs.FrameTable.{is_if_true};
ghost use Rattle.model_run.specs.Nesting.{shape_at};
ghost use Rattle.model_run.specs.Terms.{nodes_of};
ghost use Rattle.cps_code.specs.Script.{script_of};
ghost use Rattle.cps_frames.specs.Moves.{ComesTo};
ghost use Rattle.cps_frames.specs.Order.{rank};
ghost use Rattle.cps_frames.specs.Places.{MayGoOn};
ghost use Rattle.cps_frames.specs.Standing.{standing};

use crate::moves::counted_truth;
use crate::parts::{arity, current, part_form};
use cps_frames::{Halt, Move, Shared, ThreadState, inside, part};
use model_run::{Ending, Entry, Frame, FrameKind};
use model_syntax::NodeForm;
use model_values::{Env, Value};

/// Tests with their values, and then the last value.
pub fn chosen(state: &mut ThreadState, shared: &Shared, node: u32, env: Env) -> Result<Move, Halt>
    requires node { node < length (nodes_of (script_of shared.now.code)) }
    requires part { 0 < arity (shape_at (script_of shared.now.code) node) }
    ensures { ComesTo node (2 ^ 66) (λ sh a. choices a node sh env (arity sh)) (standing shared.now state.old) result (standing shared.now state.new) }
{
    let left = arity(&shared.code, node);
    choices(state, shared, node, env, left)
}

/// The last `left` of the parts, of which there is one at least: behind each test stands a part.
fn choices(
    state: &mut ThreadState,
    shared: &Shared,
    node: u32,
    env: Env,
    left: u32,
) -> Result<Move, Halt>
    requires node { node < length (nodes_of (script_of shared.now.code)) }
    requires some { 0 < left }
    requires left { left ≤ arity (shape_at (script_of shared.now.code) node) }
    ensures { (r : ℕ) → left + left < r → ComesTo node r (λ sh a. choices a node sh env left) (standing shared.now state.old) result (standing shared.now state.new) }
{
    let at = current(&shared.code, node, left - 1);
    match part_form(&shared.code, node, at) {
        NodeForm::IfTrue | NodeForm::IfSet => inside(
            state,
            shared,
            FrameKind::ChosenTest,
            node,
            left - 1,
            env,
            Entry::Inside(0),
            at,
        ),
        _ => Ok(part(shared, node, Entry::First, at, env)),
    }
}

/// Behind a test, which counts.
pub fn chosen_test(
    state: &mut ThreadState,
    shared: &mut Shared,
    frame: Frame,
    value: Value,
) -> Result<Move, Halt>
    requires may { MayGoOn (standing shared.old state.old) frame (Ending.Normal value) }
    requires kind { frame.kind ≡ FrameKind.ChosenTest }
    ensures { ComesTo frame.node (rank frame) (λ sh a. after frame sh a (Ending.Normal value)) (standing shared.old state.old) result (standing shared.new state.new) }
{
    let at = current(&shared.code, frame.node, frame.left);
    let has_value = is_if_true(part_form(&shared.code, frame.node, at));
    let holds = counted_truth(state, shared, &value)?;
    if holds {
        if has_value {
            Ok(part(shared, frame.node, Entry::Inside(1), at, frame.env))
        } else {
            Ok(Move::Ends(Ending::Normal(value)))
        }
    } else {
        choices(state, shared, frame.node, frame.env, frame.left)
    }
}

/// Whether a value of its own stands behind a test.
pub(crate) fn is_if_true(form: &NodeForm) -> bool
    ensures { result ≡ is_if_true form.now }
{
    matches!(form, NodeForm::IfTrue)
}
