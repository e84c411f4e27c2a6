//! What a row reads of values: their truth, whether they are equal, and how far a walk over them came.

use crate::cells::nth;
use cell_heap::Heap;
use method_names::Method;
use model_values::Value;
use std::alloc::Global;
use value_view::{OpRefusal, equal, truth};
use value_walks::Walk;

/// The truth of a value; or, of two behind so many pairs that were compared before, whether they are equal, or how many
/// pairs have been compared then.
pub fn view(heap: &Heap, order: &str, before: &str, values: &[Value]) -> Result<Value, OpRefusal> {
    let (a, b) = (nth(heap, values, 0), nth(heap, values, 1));
    let mut count = before.parse::<u32>().unwrap_or(0);
    match order {
        "truth" => Ok(Value::Bool(truth(heap, &a))),
        "equal" => Ok(Value::Bool(equal(heap, &a, &b, &mut count)?)),
        _ => {
            let _ = equal(heap, &a, &b, &mut count);
            Ok(Value::Int(i32::try_from(count).unwrap_or(i32::MAX)))
        }
    }
}

/// What a walk by this method gives that has begun over a value and went past its end. `None` where the method walks over
/// nothing.
pub fn end_of_walk(
    alloc: Global,
    heap: &mut Heap,
    name: &str,
    values: &[Value],
) -> Result<Option<Value>, OpRefusal> {
    let on = nth(heap, values, 0);
    let Some(method) = Method::named(name.as_bytes()) else {
        return Ok(None);
    };
    match Walk::begun(alloc, method) {
        Some(walk) => Ok(Some(walk.at_end(alloc, heap, &on)?)),
        None => Ok(None),
    }
}
