//! The methods that look for a value in a list.

ghost use Rattle.std.specs.Prelude.{◌≡◌, ◌<◌, All, IfOk, IfSome, length, slice_get};
ghost use Rattle.cell_heap.specs.Contents.{values_in};
ghost use Rattle.cell_heap.specs.Soundness.{ValueBelow};
ghost use Rattle.list_methods.specs.Searches.{Finds};
ghost use Rattle.model_values.specs.Fitting.{HasList};
ghost use Rattle.model_values.specs.Limits.{product_limits};
ghost use Rattle.model_values.specs.ListMethods.{is_found, place_found, search as found_in};
ghost use Rattle.value_view.specs.Answers.{CountedAnswers};

use crate::contents::list_in;
use cell_heap::Heap;
use model_values::{LimitKind, Value};
use value_view::{OpRefusal, equal};

/// Whether an entry equals this value.
pub(crate) fn contains(
    heap: &Heap,
    list: u32,
    value: &Value,
    count: &mut u32,
) -> Result<Value, OpRefusal>
    requires within { list < length heap.now.cells }
    requires list { HasList (slice_get heap.now.cells list) }
    requires value { ValueBelow (length heap.now.cells) value.now }
    ensures { CountedAnswers (is_found product_limits heap.now.cells (found_in product_limits heap.now.cells (values_in (slice_get heap.now.cells list)) value.now 0 count.old)) heap.now heap.now count.new result }
{
    let place = place_of(heap, list_in(heap, list).as_slice(), value, count)?;
    Ok(Value::Bool(place.is_some()))
}

/// The place of the first entry that equals this value, or -1.
pub(crate) fn index_of(
    heap: &Heap,
    list: u32,
    value: &Value,
    count: &mut u32,
) -> Result<Value, OpRefusal>
    requires within { list < length heap.now.cells }
    requires list { HasList (slice_get heap.now.cells list) }
    requires value { ValueBelow (length heap.now.cells) value.now }
    ensures { CountedAnswers (place_found product_limits heap.now.cells (found_in product_limits heap.now.cells (values_in (slice_get heap.now.cells list)) value.now 0 count.old)) heap.now heap.now count.new result }
{
    match place_of(heap, list_in(heap, list).as_slice(), value, count)? {
        Some(place) => Ok(Value::Int(place as i32)),
        None => Ok(Value::Int(-1)),
    }
}

/// The place of the first of these values that equals another. Each pair that is compared is counted.
fn place_of(
    heap: &Heap,
    values: &[Value],
    value: &Value,
    count: &mut u32,
) -> Result<Option<usize>, LimitKind>
    requires values { All (ValueBelow (length heap.now.cells)) values.now }
    requires value { ValueBelow (length heap.now.cells) value.now }
    ensures place { Finds (found_in product_limits heap.now.cells values.now value.now 0 count.old) count.new result }
    ensures within { IfOk result (λ place. IfSome place (λ at. at < length values.now)) }
{
    for (at, entry) in values.iter().enumerate() {
        if equal(heap, entry, value, count)? {
            return Ok(Some(at));
        }
    }
    Ok(None)
}
