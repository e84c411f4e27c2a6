//! `for (x in value)`.

ghost use Rattle.std.specs.Prelude.{◌≡◌, ◌<◌, ◌≤◌, ◌+◌, ◌^◌, ℕ, length};
ghost use Rattle.model_syntax.specs.declared.node.NodeForm.TheVariants as form;
ghost use Rattle.model_values.specs.Fitting.{There};
ghost use Rattle.model_values.specs.Kinds.{kind as kind_of};
ghost use Rattle.model_run.specs.Forms.{after};
ghost use Rattle.model_run.specs.Statements.{each_body, each_from, each_turn};
ghost use Rattle.model_run.specs.declared.frame.FrameKind.TheVariants as kind;
ghost use Rattle.cps_code.specs.Script.{script_of};
ghost use Rattle.cps_frames.specs.Moves.{ComesTo};
ghost use Rattle.cps_frames.specs.Order.{rank};
ghost use Rattle.cps_frames.specs.Places.{MayEnter, MayGoOn};
ghost use Rattle.cps_frames.specs.Standing.{standing};
ghost use Rattle.cps_frames.specs.declared.thread.ThreadState.{ThreadState as Thread};
ghost use Rattle.cps_variables.specs.Nodes.{HasForm};
ghost use Rattle.model_run.specs.Around.{position, value_at};
ghost use Rattle.cps_statements.specs.Turns.{IsPosition};
ghost use Rattle.value_walks.specs.Places.{IsLoopPlace};
ghost use Rattle.model_run.specs.declared.ending.Entry.TheVariants.{Turn};

use cps_frames::{Halt, Move, Shared, ThreadState, turn, turn_of, under, value_of};
use cps_variables::{kept_value, new_variable, value_at};
use model_run::{Ending, Entry, Frame, FrameKind};
use model_text::Text;
use model_values::{Binding, Env, Value, Values};
use value_walks::{LoopPlace, has_loop_turn, loop_turn};

/// The place of turn `at` of a loop over a value. Nothing changes.
fn loop_place(shared: &mut Shared, on: &Value, at: u32) -> LoopPlace
    requires { There shared.old.heap.cells on.now }
    ensures at { result.at ≡ at }
    ensures place { IsLoopPlace (kind_of shared.old.heap.cells on.now) at result.byte }
    ensures unchanged { shared.new ≡ shared.old }
{
    LoopPlace::of(&mut shared.heap, on, at)
}

/// Turn `at` of a loop over a value, counted from 0, which is counted as a node; else the loop has ended.
fn each_from(shared: &mut Shared, node: u32, at: u32, on: Value, env: Env) -> Result<Move, Halt>
    requires { There shared.old.heap.cells on }
    ensures { (t : Thread) (r : ℕ) → 0 < r → ComesTo node r (λ sh a. each_from a env on at) (standing shared.old t) result (standing shared.new t) }
{
    let place = loop_place(shared, &on, at);
    if !has_loop_turn(&shared.heap, &on, place) {
        return Ok(Move::Ends(Ending::Normal(Value::Null)));
    }
    let mut kept = Values::new(shared.alloc());
    kept.push(on)?;
    turn(shared, node, at, kept, env)
}

/// Behind what the loop goes over: its first turn.
pub(crate) fn after_each_over(
    state: &ThreadState,
    shared: &mut Shared,
    frame: Frame,
    ending: Ending,
) -> Result<Move, Halt>
    requires may { MayGoOn (standing shared.old state.now) frame ending }
    requires kind { frame.kind ≡ kind.EachOver }
    ensures { ComesTo frame.node (rank frame) (λ sh a. after frame sh a ending) (standing shared.old state.now) result (standing shared.new state.now) }
{
    let on = value_of(ending)?;
    each_from(shared, frame.node, 0, on, frame.env)
}

/// The block of the loop in turn `at`, in which a new variable of this name holds what stands there.
fn each_body(
    state: &mut ThreadState,
    shared: &mut Shared,
    node: u32,
    name: Text,
    env: Env,
    on: Value,
    at: u32,
    element: Value,
) -> Result<Move, Halt>
    requires form { HasForm (script_of shared.old.code) node (form.ForEach name) }
    requires element { There shared.old.heap.cells element }
    requires low { at ≤ 2147483646 }
    ensures { (r : ℕ) → 1 < r → ComesTo node r (λ sh a. each_body a node name env on at element) (standing shared.old state.old) result (standing shared.new state.new) }
{
    let alloc = shared.alloc();
    let cell = new_variable(shared, element)?;
    let inner = env.clone()?.with(Binding { name, cell })?;
    let mut values = Values::new(alloc);
    values.push(on)?;
    values.push(Value::Int(at as i32))?;
    let frame = Frame {
        kind: FrameKind::EachBody,
        node,
        left: 0,
        env,
        values,
    };
    under(state, shared, frame, Entry::First, 1, inner)
}

/// Turn `at` of a loop over the value that is kept: its block, with what stands there now.
pub(crate) fn each_turn(
    state: &mut ThreadState,
    shared: &mut Shared,
    node: u32,
    name: Text,
    at: u32,
    kept: Values,
    env: Env,
) -> Result<Move, Halt>
    requires may { MayEnter (standing shared.old state.old) (Turn at kept) node env }
    requires form { HasForm (script_of shared.old.code) node (form.ForEach name) }
    ensures { ComesTo node (2 ^ 66) (λ sh a. each_turn a node name env at kept) (standing shared.old state.old) result (standing shared.new state.new) }
{
    let on = value_at(&kept, 0);
    let place = loop_place(shared, &on, at);
    match loop_turn(shared.alloc(), &mut shared.heap, &on, place)? {
        None => Ok(Move::Ends(Ending::Normal(Value::Null))),
        Some(begun) => {
            let element = begun.arguments.first();
            each_body(state, shared, node, name, env, on, at, element)
        }
    }
}

/// The position of a turn, which its frame keeps behind what the loop goes over.
fn kept_position(values: &Values) -> u32
    requires kept { 1 < length values.now }
    requires place { IsPosition (value_at 1 values.now) }
    ensures position { result ≡ position (value_at 1 values.now) }
    ensures low { result ≤ 2147483646 }
{
    match kept_value(values, 1) {
        Value::Int(at) => at as u32,
        _ => unreachable!(),
    }
}

/// Behind its block: the next turn, unless the block has left the loop.
pub(crate) fn after_each_body(
    state: &ThreadState,
    shared: &mut Shared,
    frame: Frame,
    ending: Ending,
) -> Result<Move, Halt>
    requires may { MayGoOn (standing shared.old state.now) frame ending }
    requires kind { frame.kind ≡ kind.EachBody }
    ensures { ComesTo frame.node (rank frame) (λ sh a. after frame sh a ending) (standing shared.old state.now) result (standing shared.new state.now) }
{
    turn_of(ending)?;
    let on = kept_value(&frame.values, 0);
    let at = kept_position(&frame.values) + 1;
    each_from(shared, frame.node, at, on, frame.env)
}
