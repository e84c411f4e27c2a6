//! What an operation on values does ends a node.

ghost use Rattle.std.specs.Prelude.{◌≡◌, ◌<◌, ℕ, Err, length};
ghost use Rattle.model_values.specs.Cells.{Answer};
ghost use Rattle.model_values.specs.Limits.{product_limits};
ghost use Rattle.model_run.specs.Around.{ended};
ghost use Rattle.model_run.specs.State.{World, operating};
ghost use Rattle.value_ops.specs.Effects.{EffectBelow, effect_answer};
ghost use Rattle.cps_frames.specs.Changes.{Done, GivesNothing};
ghost use Rattle.cps_frames.specs.Moves.{ComesTo};
ghost use Rattle.cps_frames.specs.Standing.{standing, world_of};
ghost use Rattle.cps_frames.specs.declared.thread.ThreadState.{ThreadState as Thread};

use cps_frames::{Halt, Move, Shared};
use model_run::Ending;
use value_ops::{Effect, perform};
use value_view::OpRefusal;

/// Does what an operation has decided, and ends the node with what that gives or throws.
pub(crate) fn end_with(shared: &mut Shared, effect: Effect) -> Result<Move, Halt>
    requires { EffectBelow (length shared.old.heap.cells) effect }
    ensures { (t : Thread) (k r : ℕ) (f : World → Answer) → 0 < r → f (world_of shared.old t) ≡ effect_answer product_limits shared.old.heap.cells effect → ComesTo k r (λ sh a. operating f ended) (standing shared.old t) result (standing shared.new t) }
{
    let value = perform(&mut shared.heap, effect)?;
    Ok(Move::Ends(Ending::Normal(value)))
}

/// Throws what an operation has decided to throw: the throwable, or why there is none.
pub(crate) fn throw_with(shared: &mut Shared, effect: Effect) -> OpRefusal
    requires fits { EffectBelow (length shared.old.heap.cells) effect }
    requires throws { GivesNothing (effect_answer product_limits shared.old.heap.cells effect) }
    ensures { (t : Thread) (f : World → Answer) → f (world_of shared.old t) ≡ effect_answer product_limits shared.old.heap.cells effect → Done f (standing shared.old t) (Err result) (standing shared.new t) }
{
    let Err(refusal) = perform(&mut shared.heap, effect) else {
        unreachable!()
    };
    refusal
}
