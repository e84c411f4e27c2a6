//! Several values from left to right: arguments, the entries of a list or map, the parts of a text.

ghost use Rattle.std.specs.Prelude.{◌≡◌, ◌<◌, ◌≤◌, ◌+◌, ◌-◌, ◌^◌, ℕ, List, [], true, false, length};
ghost use Rattle.std.specs.List.{AllByRecursion as AllAre};
ghost use Rattle.model_values.specs.Fitting.{There};
ghost use Rattle.model_values.specs.declared.value.Value.{Value as Held};
ghost use Rattle.model_run.specs.Around.{Around, arity, form_at};
ghost use Rattle.model_run.specs.FrameTable.{count_before, count_of, gathers, is_method, is_name_call, is_plain};
ghost use Rattle.model_run.specs.Forms.{after, gather_all, gathered, start, suffix_on};
ghost use Rattle.model_run.specs.Gathering.{gather};
ghost use Rattle.model_run.specs.Nesting.{shape_at};
ghost use Rattle.model_run.specs.Terms.{nodes_of};
ghost use Rattle.model_run.specs.State.{Env as Variables, State, Result as Comes};
ghost use Rattle.cps_code.specs.Script.{script_of};
ghost use Rattle.cps_frames.specs.Moves.{ComesTo};
ghost use Rattle.cps_frames.specs.Order.{rank};
ghost use Rattle.cps_frames.specs.Places.{MayEnter, MayGoOn};
ghost use Rattle.cps_frames.specs.Standing.{standing};
ghost use Rattle.cps_expressions.specs.Parts.{first_of};

use cps_calls::{call_named, called_value, method_step};
use cps_code::Code;
use cps_frames::{Halt, Move, Shared, ThreadState};
use cps_operators::{arity, current, inside_with, part_form};
use cps_values::{closes_named, list, map, named_count, named_entries, text, throwable, with_map};
use model_run::{Ending, Entry, Frame, FrameKind};
use model_syntax::NodeForm;
use model_values::{Env, Value, Values};
use value_ops::{Effect, perform};

/// The last `left` parts of a node that gathers values, behind these, and then what is done with all of them.
pub(crate) fn gather(
    state: &mut ThreadState,
    shared: &mut Shared,
    node: u32,
    env: Env,
    left: u32,
    kept: Values,
) -> Result<Move, Halt>
    requires may { MayEnter (standing shared.old state.old) Entry.First node env }
    requires form { gathers (shape_at (script_of shared.old.code) node).form ≡ true }
    requires left { left ≤ arity (shape_at (script_of shared.old.code) node) }
    requires kept { AllAre (There shared.old.heap.cells) kept }
    requires count { length kept ≡ count_of (shape_at (script_of shared.old.code) node) env (arity (shape_at (script_of shared.old.code) node) - left) }
    ensures { (r : ℕ) → left + left < r → ComesTo node r (λ sh a. gather_all a node sh env left kept) (standing shared.old state.old) result (standing shared.new state.new) }
{
    let left = behind_plain(&shared.code, node, left);
    if left == 0 {
        return gathered(state, shared, node, env, kept);
    }
    let left = left - 1;
    let at = current(&shared.code, node, left);
    let (kind, entry) = first_of(part_form(&shared.code, node, at));
    inside_with(state, shared, kind, node, left, env, kept, entry, at)
}

/// All parts of a node that keeps nothing before them.
pub(crate) fn gather_all(
    state: &mut ThreadState,
    shared: &mut Shared,
    node: u32,
    env: Env,
) -> Result<Move, Halt>
    requires may { MayEnter (standing shared.old state.old) Entry.First node env }
    requires form { gathers (shape_at (script_of shared.old.code) node).form ≡ true }
    requires before { count_before (shape_at (script_of shared.old.code) node).form env ≡ 0 }
    ensures { ComesTo node (2 ^ 66) (λ sh a. gather_all a node sh env (arity sh) []) (standing shared.old state.old) result (standing shared.new state.new) }
{
    let left = arity(&shared.code, node);
    let kept = Values::new(shared.alloc());
    gather(state, shared, node, env, left, kept)
}

/// A call of a name: the value of a declared variable of this name is kept before the arguments.
pub(crate) fn call(
    state: &mut ThreadState,
    shared: &mut Shared,
    node: u32,
    env: Env,
) -> Result<Move, Halt>
    requires may { MayEnter (standing shared.old state.old) Entry.First node env }
    requires form { is_name_call (shape_at (script_of shared.old.code) node).form ≡ true }
    ensures { ComesTo node (2 ^ 66) (λ sh a. start a node sh env sh.form) (standing shared.old state.old) result (standing shared.new state.new) }
{
    let left = arity(&shared.code, node);
    let NodeForm::Call(name) = shared.code.kind(node) else {
        unreachable!()
    };
    let kept = called_value(shared, name.as_slice(), &env)?;
    gather(state, shared, node, env, left, kept)
}

/// A call of a method, on the value before it.
pub(crate) fn method(
    state: &mut ThreadState,
    shared: &mut Shared,
    node: u32,
    env: Env,
    value: Value,
) -> Result<Move, Halt>
    requires may { MayEnter (standing shared.old state.old) (Entry.On value) node env }
    requires form { is_method (shape_at (script_of shared.old.code) node).form ≡ true }
    ensures { ComesTo node (2 ^ 66) (λ sh a. suffix_on a node sh env value sh.form) (standing shared.old state.old) result (standing shared.new state.new) }
{
    let left = arity(&shared.code, node);
    let kept = Values::from_slice(shared.alloc(), &[value])?;
    gather(state, shared, node, env, left, kept)
}

/// What is evaluated first of a part, and under which frame.
pub(crate) fn first_of(form: &NodeForm) -> (FrameKind, Entry)
    ensures { result ≡ first_of form.now }
{
    match form {
        NodeForm::ComputedEntry => (FrameKind::GatheredKey, Entry::Inside(0)),
        NodeForm::NamedEntry(_) | NodeForm::NumberedEntry(_) => {
            (FrameKind::Gathered, Entry::Inside(0))
        }
        _ => (FrameKind::Gathered, Entry::First),
    }
}

/// How many of the last `left` parts come behind the plain ones in front.
fn behind_plain(code: &Code, node: u32, left: u32) -> u32
    requires node { node < length (nodes_of (script_of code.now)) }
    requires left { left ≤ arity (shape_at (script_of code.now) node) }
    ensures less { result ≤ left }
    ensures same { (a : Around) (env : Variables) (finish : List Held → State → Comes) (kept : List Held) → gather a node (shape_at (script_of code.now) node) env finish left kept ≡ gather a node (shape_at (script_of code.now) node) env finish result kept }
    ensures count { (env : Variables) → count_of (shape_at (script_of code.now) node) env (arity (shape_at (script_of code.now) node) - left) ≡ count_of (shape_at (script_of code.now) node) env (arity (shape_at (script_of code.now) node) - result) }
    ensures plain { 0 < result → is_plain (form_at (shape_at (script_of code.now) node).parts (arity (shape_at (script_of code.now) node) - result)) ≡ false }
{
    let mut left = left;
    while left > 0 {
        let at = current(code, node, left - 1);
        if !matches!(part_form(code, node, at), NodeForm::PlainPart(_)) {
            return left;
        }
        left -= 1;
    }
    left
}

/// What is done with all values of a node.
fn gathered(
    state: &mut ThreadState,
    shared: &mut Shared,
    node: u32,
    env: Env,
    values: Values,
) -> Result<Move, Halt>
    requires may { MayEnter (standing shared.old state.old) Entry.First node env }
    requires form { gathers (shape_at (script_of shared.old.code) node).form ≡ true }
    requires values { AllAre (There shared.old.heap.cells) values }
    requires count { length values ≡ count_of (shape_at (script_of shared.old.code) node) env (arity (shape_at (script_of shared.old.code) node)) }
    ensures { (r : ℕ) → 0 < r → ComesTo node r (λ sh a. gathered a node env sh sh.form values) (standing shared.old state.old) result (standing shared.new state.new) }
{
    match shared.code.kind(node) {
        NodeForm::Call(_) => call_named(state, shared, node, env, values),
        NodeForm::Method(_, _) => method_step(state, shared, node, env, values),
        NodeForm::List => list(state, shared, values),
        NodeForm::Map => map(state, shared, node, &values),
        NodeForm::GString => text(state, shared, node, &values),
        NodeForm::New(class) => {
            let class = *class;
            throwable(state, shared, class, &values)
        }
        _ => unreachable!(),
    }
}

/// Behind a part: its value is kept.
pub(crate) fn gathered_value(
    state: &mut ThreadState,
    shared: &mut Shared,
    frame: Frame,
    value: Value,
) -> Result<Move, Halt>
    requires may { MayGoOn (standing shared.old state.old) frame (Ending.Normal value) }
    requires kind { frame.kind ≡ FrameKind.Gathered }
    ensures { ComesTo frame.node (rank frame) (λ sh a. after frame sh a (Ending.Normal value)) (standing shared.old state.old) result (standing shared.new state.new) }
{
    let mut kept = frame.values;
    kept.push(value)?;
    if !closes_named(&shared.code, frame.node, frame.left) {
        return gather(state, shared, frame.node, frame.env, frame.left, kept);
    }
    let before = kept
        .len()
        .saturating_sub(named_count(&shared.code, frame.node));
    let named = &kept.as_slice()[before..];
    let entries = named_entries(shared.alloc(), &shared.code, frame.node, named)?;
    let map = perform(&mut shared.heap, Effect::NewMap(entries))?;
    let kept = with_map(kept, before, map)?;
    gather(state, shared, frame.node, frame.env, frame.left, kept)
}

/// Behind the key of an entry: it is kept, and its value is evaluated.
pub(crate) fn gathered_key(
    state: &mut ThreadState,
    shared: &mut Shared,
    frame: Frame,
    value: Value,
) -> Result<Move, Halt>
    requires may { MayGoOn (standing shared.old state.old) frame (Ending.Normal value) }
    requires kind { frame.kind ≡ FrameKind.GatheredKey }
    ensures { ComesTo frame.node (rank frame) (λ sh a. after frame sh a (Ending.Normal value)) (standing shared.old state.old) result (standing shared.new state.new) }
{
    let at = current(&shared.code, frame.node, frame.left);
    let mut kept = frame.values;
    kept.push(value)?;
    inside_with(
        state,
        shared,
        FrameKind::Gathered,
        frame.node,
        frame.left,
        frame.env,
        kept,
        Entry::Inside(1),
        at,
    )
}
