//! What stands behind a primary: `.name`, `?.name` and `[index]`.

ghost use Rattle.std.specs.Prelude.{◌≡◌, ◌<◌, ◌^◌, ℕ, true, length};
ghost use Rattle.cell_heap.specs.Soundness.{ValueBelow};
ghost use Rattle.model_run.specs.Around.{arity};
ghost use Rattle.model_run.specs.Expressions.{indexed, suffixed_all};
ghost use Rattle.model_run.specs.Forms.{after, suffix_on};
ghost use Rattle.model_run.specs.Nesting.{shape_at};
ghost use Rattle.model_run.specs.State.{Env as Variables};
ghost use Rattle.model_run.specs.Terms.{nodes_of};
ghost use Rattle.cps_code.specs.Script.{script_of};
ghost use Rattle.cps_frames.specs.Moves.{ComesTo};
ghost use Rattle.cps_frames.specs.Order.{rank};
ghost use Rattle.cps_frames.specs.Places.{MayGoOn};
ghost use Rattle.cps_frames.specs.Standing.{standing};
ghost use Rattle.cps_operators.specs.Suffixes.{is_property};

use crate::moves::inside_with;
use crate::operations::gives_null;
use crate::parts::{arity, current};
use cps_frames::{Halt, Move, Shared, ThreadState, inside, tick};
use model_run::{Ending, Entry, Frame, FrameKind};
use model_syntax::NodeForm;
use model_values::{Env, Value, Values};
use value_operators::{get_at, get_property};

/// A primary and its suffixes: first the primary.
pub fn suffixed_all(
    state: &mut ThreadState,
    shared: &Shared,
    node: u32,
    env: Env,
) -> Result<Move, Halt>
    requires node { node < length (nodes_of (script_of shared.now.code)) }
    requires part { 0 < arity (shape_at (script_of shared.now.code) node) }
    ensures { ComesTo node (2 ^ 66) (λ sh a. suffixed_all a node sh env) (standing shared.now state.old) result (standing shared.now state.new) }
{
    let left = arity(&shared.code, node) - 1;
    inside(
        state,
        shared,
        FrameKind::SuffixedPart,
        node,
        left,
        env,
        Entry::First,
        0,
    )
}

/// Behind the primary or a suffix: the next suffix, on the value.
pub fn suffixed_part(
    state: &mut ThreadState,
    shared: &mut Shared,
    frame: Frame,
    value: Value,
) -> Result<Move, Halt>
    requires may { MayGoOn (standing shared.old state.old) frame (Ending.Normal value) }
    requires kind { frame.kind ≡ FrameKind.SuffixedPart }
    ensures { ComesTo frame.node (rank frame) (λ sh a. after frame sh a (Ending.Normal value)) (standing shared.old state.old) result (standing shared.new state.new) }
{
    if frame.left == 0 {
        return Ok(Move::Ends(Ending::Normal(value)));
    }
    let left = frame.left - 1;
    let at = current(&shared.code, frame.node, left);
    let entry = Entry::On(value);
    inside(
        state,
        shared,
        FrameKind::SuffixedPart,
        frame.node,
        left,
        frame.env,
        entry,
        at,
    )
}

/// `value.name` and `value?.name`, which count.
pub fn property(
    state: &ThreadState,
    shared: &mut Shared,
    node: u32,
    value: Value,
) -> Result<Move, Halt>
    requires node { node < length (nodes_of (script_of shared.old.code)) }
    requires value { ValueBelow (length shared.old.heap.cells) value }
    requires form { is_property (shape_at (script_of shared.old.code) node).form ≡ true }
    ensures { (env : Variables) → ComesTo node (2 ^ 66) (λ sh a. suffix_on a node sh env value sh.form) (standing shared.old state.now) result (standing shared.new state.now) }
{
    tick(shared)?;
    let alloc = shared.alloc();
    let NodeForm::Property(access, name) = shared.code.kind(node) else {
        unreachable!()
    };
    if gives_null(&shared.heap, *access, &value) {
        return Ok(Move::Ends(Ending::Normal(Value::Null)));
    }
    let given = get_property(alloc, &mut shared.heap, &value, name.as_slice())?;
    Ok(Move::Ends(Ending::Normal(given)))
}

/// `value[index]`: first the index.
pub fn indexed(
    state: &mut ThreadState,
    shared: &Shared,
    node: u32,
    env: Env,
    value: Value,
) -> Result<Move, Halt>
    requires node { node < length (nodes_of (script_of shared.now.code)) }
    requires part { 0 < arity (shape_at (script_of shared.now.code) node) }
    ensures { ComesTo node (2 ^ 66) (λ sh a. indexed a node env value) (standing shared.now state.old) result (standing shared.now state.new) }
{
    let kept = Values::from_slice(shared.alloc(), &[value])?;
    inside_with(
        state,
        shared,
        FrameKind::IndexValue,
        node,
        0,
        env,
        kept,
        Entry::First,
        0,
    )
}

/// Behind the index, which counts.
pub fn index_value(
    state: &mut ThreadState,
    shared: &mut Shared,
    frame: Frame,
    value: Value,
) -> Result<Move, Halt>
    requires may { MayGoOn (standing shared.old state.old) frame (Ending.Normal value) }
    requires kind { frame.kind ≡ FrameKind.IndexValue }
    ensures { ComesTo frame.node (rank frame) (λ sh a. after frame sh a (Ending.Normal value)) (standing shared.old state.old) result (standing shared.new state.new) }
{
    let on = frame.values.as_slice()[0];
    tick(shared)?;
    let alloc = shared.alloc();
    let given = get_at(alloc, &mut shared.heap, &on, &value)?;
    Ok(Move::Ends(Ending::Normal(given)))
}
