//! Further turns of a node, and bodies of closures and functions: each is counted or has a flow node, so that no script
//! runs for ever within one event.

ghost use Rattle.std.specs.Prelude.{◌≡◌, ℕ, ◌^◌, ◌<◌, []};
ghost use Rattle.model_run.specs.Forms.{after};
ghost use Rattle.model_run.specs.State.{through, tick};
ghost use Rattle.model_run.specs.Steps.{run_body};
ghost use Rattle.cps_frames.specs.Moves.{ComesTo};
ghost use Rattle.cps_frames.specs.Order.{rank};
ghost use Rattle.cps_frames.specs.Standing.{standing};
ghost use Rattle.cps_frames.specs.declared.thread.ThreadState.{ThreadState as Thread};

use crate::{Halt, Move, Shared, ThreadState, note_body, tick};
use model_run::{Callee, Entry, Frame};
use model_values::{Env, Values};

/// Turn `at` of a loop or a walk at this node, which is counted. `Halt::Limit` where 1,000,000 nodes were evaluated for
/// this event.
pub fn turn(shared: &mut Shared, node: u32, at: u32, kept: Values, env: Env) -> Result<Move, Halt>
    ensures { (t : Thread) (r : ℕ) → 0 < r → ComesTo node r (λ sh a. tick (a.again at kept env)) (standing shared.old t) result (standing shared.new t) }
{
    tick(shared)?;
    Ok(Move::Enter(Entry::Turn(at, kept), node, env))
}

/// A closure or a function is called from any node, which is counted. `Halt::Limit` where 1,000,000 nodes were evaluated
/// for this event.
pub fn call(shared: &mut Shared, callee: Callee, arguments: Values) -> Result<Move, Halt>
    ensures { (t : Thread) (k r : ℕ) → 0 < r → ComesTo k r (λ sh a. tick (a.call callee.node arguments callee.env)) (standing shared.old t) result (standing shared.new t) }
{
    tick(shared)?;
    Ok(Move::Enter(Entry::Body(arguments), callee.node, callee.env))
}

/// The same inside a frame of the node. `Halt::Memory` where the memory was refused.
pub fn call_inside(
    state: &mut ThreadState,
    shared: &mut Shared,
    frame: Frame,
    callee: Callee,
    arguments: Values,
) -> Result<Move, Halt>
    requires few { rank frame < 2 ^ 66 }
    ensures { (r : ℕ) → 0 < r → ComesTo frame.node r (λ sh a s. through frame (after frame sh a) (tick (a.call callee.node arguments callee.env) s)) (standing shared.old state.old) result (standing shared.new state.new) }
{
    tick(shared)?;
    state.push(frame)?;
    Ok(Move::Enter(Entry::Body(arguments), callee.node, callee.env))
}

/// The body of a step begins inside this frame, with its flow node and its line. `Halt::Limit` where the graph has 65,536
/// nodes or the log would have more than 16,777,216 bytes, and `Halt::Memory` where the memory was refused.
pub fn run_body(
    state: &mut ThreadState,
    shared: &mut Shared,
    frame: Frame,
    label: &[u8],
    callee: Callee,
) -> Result<Move, Halt>
    requires few { rank frame < 2 ^ 66 }
    ensures { (r : ℕ) → 0 < r → ComesTo frame.node r (λ sh a. run_body a frame (after frame sh a) label.now callee) (standing shared.old state.old) result (standing shared.new state.new) }
{
    note_body(state, shared, label)?;
    state.push(frame)?;
    let arguments = Values::new(shared.alloc());
    Ok(Move::Enter(Entry::Body(arguments), callee.node, callee.env))
}
