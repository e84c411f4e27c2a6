//! A node's parts, evaluated under a frame of the node or in its place.

ghost use Rattle.std.specs.Prelude.{◌≡◌, ◌<◌, ℕ, [], length};
ghost use Rattle.model_run.specs.Around.{arity, frame, under};
ghost use Rattle.model_run.specs.Forms.{after};
ghost use Rattle.model_run.specs.Nesting.{shape_at};
ghost use Rattle.model_run.specs.Terms.{nodes_of};
ghost use Rattle.cps_code.specs.Script.{script_of};
ghost use Rattle.cps_frames.specs.Moves.{Comes, ComesTo, IsOfPart};
ghost use Rattle.cps_frames.specs.Order.{rank};
ghost use Rattle.cps_frames.specs.Standing.{standing};
ghost use Rattle.cps_frames.specs.declared.thread.ThreadState.{ThreadState as Thread};

use crate::{Halt, Move, Shared, ThreadState};
use model_run::{Entry, Frame, FrameKind};
use model_values::{Env, Values};

/// Part `at` of a node is evaluated under this frame of the node. `Halt::Memory` where the memory was refused.
pub fn under(
    state: &mut ThreadState,
    shared: &Shared,
    frame: Frame,
    entry: Entry,
    at: u32,
    env: Env,
) -> Result<Move, Halt>
    requires node { frame.node < length (nodes_of (script_of shared.now.code)) }
    requires part { at < arity (shape_at (script_of shared.now.code) frame.node) }
    requires entry { IsOfPart entry }
    ensures { (r : ℕ) → rank frame < r → ComesTo frame.node r (λ sh a. under a frame (after frame sh a) entry at env) (standing shared.now state.old) result (standing shared.now state.new) }
{
    match shared.code.part(frame.node, at) {
        None => unreachable!(),
        Some(part) => {
            state.push(frame)?;
            Ok(Move::Enter(entry, part, env))
        }
    }
}

/// Part `at` of a node is evaluated under a frame that keeps no values, and sees the variables that the frame sees.
/// `Halt::Memory` where the memory was refused.
pub fn inside(
    state: &mut ThreadState,
    shared: &Shared,
    kind: FrameKind,
    node: u32,
    left: u32,
    env: Env,
    entry: Entry,
    at: u32,
) -> Result<Move, Halt>
    requires node { node < length (nodes_of (script_of shared.now.code)) }
    requires part { at < arity (shape_at (script_of shared.now.code) node) }
    requires entry { IsOfPart entry }
    ensures { (r : ℕ) → rank (frame kind node left env []) < r → ComesTo node r (λ sh a. under a (frame kind node left env []) (after (frame kind node left env []) sh a) entry at env) (standing shared.now state.old) result (standing shared.now state.new) }
{
    let frame = Frame {
        kind,
        node,
        left,
        env: env.clone()?,
        values: Values::new(shared.alloc()),
    };
    under(state, shared, frame, entry, at, env)
}

/// Part `at` of a node is evaluated in the place of the node.
pub fn part(shared: &Shared, node: u32, entry: Entry, at: u32, env: Env) -> Move
    requires node { node < length (nodes_of (script_of shared.now.code)) }
    requires part { at < arity (shape_at (script_of shared.now.code) node) }
    requires entry { IsOfPart entry }
    ensures { (t : Thread) (r : ℕ) → 0 < r → Comes node r (λ sh a. a.part entry at env) (standing shared.now t) result (standing shared.now t) }
{
    match shared.code.part(node, at) {
        None => unreachable!(),
        Some(part) => Move::Enter(entry, part, env),
    }
}
