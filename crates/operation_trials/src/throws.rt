//! What a row throws, and the exception that it makes of a value.
ghost use Rattle.std.specs.Prelude.{IfOk};
ghost use Rattle.value_ops.specs.Effects.{NamesNone};

use crate::cells::nth;
use cell_heap::Heap;
use model_values::{Class, Value};
use std::alloc::{AllocError, Global};
use value_ops::{
    Effect, new_throwable, no_number, perform, throw_value, unknown_name, unknown_step,
};
use value_view::OpRefusal;

/// Throws that there is no such name, no such step, or that a text is no number.
pub fn throws(alloc: Global, heap: &mut Heap, order: &str, name: &str) -> Result<Value, OpRefusal> {
    let effect = cause(alloc, order, name.as_bytes())?;
    perform(heap, effect)
}

/// What is thrown where there is no such name, no such step, or where a text is no number.
fn cause(alloc: Global, order: &str, name: &[u8]) -> Result<Effect, AllocError>
    ensures { IfOk result NamesNone }
{
    match order {
        "unknown_name" => unknown_name(alloc, name),
        "unknown_step" => unknown_step(alloc, name),
        _ => no_number(alloc, name),
    }
}

/// Makes an exception with the text of a value, or throws a value.
pub fn exception(
    alloc: Global,
    heap: &mut Heap,
    order: &str,
    values: &[Value],
) -> Result<Value, OpRefusal> {
    let value = nth(heap, values, 0);
    match order {
        "new_exception" => new_throwable(alloc, heap, Class::Exception, Some(value)),
        _ => throw_value(alloc, heap, &value),
    }
}
