//! Moves that several forms make.

ghost use Rattle.std.specs.Prelude.{◌≡◌, ◌<◌, ℕ, length, IfOk};
ghost use Rattle.cell_heap.specs.Soundness.{ValueBelow};
ghost use Rattle.model_run.specs.Around.{arity, frame, under};
ghost use Rattle.model_run.specs.Forms.{after, value as counted_value};
ghost use Rattle.model_run.specs.Nesting.{shape_at};
ghost use Rattle.model_run.specs.State.{may_count, counted};
ghost use Rattle.model_run.specs.Terms.{nodes_of};
ghost use Rattle.model_values.specs.Truth.{truth};
ghost use Rattle.cps_code.specs.Script.{script_of};
ghost use Rattle.cps_frames.specs.Changes.{Passes, done};
ghost use Rattle.cps_frames.specs.Moves.{ComesTo, IsOfPart};
ghost use Rattle.cps_frames.specs.Order.{rank};
ghost use Rattle.cps_frames.specs.Standing.{standing};
ghost use Rattle.cps_frames.specs.declared.thread.ThreadState.{ThreadState as Thread};

use cps_frames::{Halt, Move, Shared, ThreadState, tick, under};
use model_run::{Ending, Entry, Frame, FrameKind};
use model_values::{Env, Value, Values};
use value_view::truth;

/// A node that counts and ends with this value. `Halt::Limit` where 1,000,000 nodes were evaluated for this event.
pub fn counted_value(shared: &mut Shared, value: Value) -> Result<Move, Halt>
    ensures { (t : Thread) (k r : ℕ) → 0 < r → ComesTo k r (λ sh a. counted_value value) (standing shared.old t) result (standing shared.new t) }
{
    tick(shared)?;
    Ok(Move::Ends(Ending::Normal(value)))
}

/// The truth of a value, behind a sign that counts. `Halt::Limit` where 1,000,000 nodes were evaluated for this event.
pub(crate) fn counted_truth(
    state: &ThreadState,
    shared: &mut Shared,
    value: &Value,
) -> Result<bool, Halt>
    requires { ValueBelow (length shared.old.heap.cells) value.now }
    ensures passes { Passes may_count counted (standing shared.old state.now) (done result) (standing shared.new state.now) }
    ensures truth { IfOk result (λ holds. holds ≡ truth shared.new.heap.cells value.now) }
{
    let holds = truth(&shared.heap, value);
    tick(shared)?;
    Ok(holds)
}

/// Part `at` of a node is evaluated under a frame that keeps these values, and sees the variables that the frame sees.
/// `Halt::Memory` where the memory was refused.
pub fn inside_with(
    state: &mut ThreadState,
    shared: &Shared,
    kind: FrameKind,
    node: u32,
    left: u32,
    env: Env,
    values: Values,
    entry: Entry,
    at: u32,
) -> Result<Move, Halt>
    requires node { node < length (nodes_of (script_of shared.now.code)) }
    requires part { at < arity (shape_at (script_of shared.now.code) node) }
    requires entry { IsOfPart entry }
    ensures { (r : ℕ) → rank (frame kind node left env values) < r → ComesTo node r (λ sh a. under a (frame kind node left env values) (after (frame kind node left env values) sh a) entry at env) (standing shared.now state.old) result (standing shared.now state.new) }
{
    let frame = Frame {
        kind,
        node,
        left,
        env: env.clone()?,
        values,
    };
    under(state, shared, frame, entry, at, env)
}
