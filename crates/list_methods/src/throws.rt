//! Throws.

ghost use Rattle.model_values.specs.Limits.{product_limits};
ghost use Rattle.value_ops.specs.Effects.{NamesNone, effect_answer};
ghost use Rattle.value_view.specs.Answers.{Answers, Leaves};

use cell_heap::Heap;
use model_values::Value;
use value_ops::{Effect, perform};
use value_view::OpRefusal;

/// Does what names no cell, as the throw of a new throwable.
pub(crate) fn throw(heap: &mut Heap, effect: Effect) -> Result<Value, OpRefusal>
    requires { NamesNone effect }
    ensures answer { Answers (effect_answer product_limits heap.old.cells effect) heap.old heap.new result }
    ensures leaves { Leaves heap.old heap.new result }
{
    perform(heap, effect)
}
