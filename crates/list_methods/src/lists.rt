//! The methods of lists, one function each, but for those that compare.

ghost use Rattle.std.specs.Prelude.{◌≡◌, ◌<◌, [], All, length, pos, reverse, true, slice_get};
ghost use Rattle.cell_heap.specs.Contents.{values_in};
ghost use Rattle.cell_heap.specs.Soundness.{ValueBelow};
ghost use Rattle.list_methods.specs.Joining.{joined_entry};
ghost use Rattle.model_values.specs.Cells.{new_list};
ghost use Rattle.model_values.specs.Fitting.{HasList};
ghost use Rattle.model_values.specs.Kinds.{kind};
ghost use Rattle.model_values.specs.Limits.{product_limits};
ghost use Rattle.model_values.specs.ListMethods.{entry_at, first_of_list, is_empty_list, joined_behind};
ghost use Rattle.model_values.specs.TextMethods.{with_number, with_text};
ghost use Rattle.model_values.specs.TextOf.{written};
ghost use Rattle.model_values.specs.declared.value.Value.TheVariants.{Bool as Truth, Int as Whole};
ghost use Rattle.value_view.specs.Answers.{Answers, IsWritten, Leaves, Writes};

use crate::contents::list_in;
use crate::throws::throw;
use cell_heap::Heap;
use model_text::Text;
use model_values::{Value, Values};
use std::alloc::Global;
use value_ops::{Effect, bad_argument, empty_list, outside, perform};
use value_view::{Kind, OpRefusal, kind_of, write_bytes, write_value};

/// How many entries it has.
pub(crate) fn list_size(heap: &Heap, list: u32) -> Value
    requires within { list < length heap.now.cells }
    requires list { HasList (slice_get heap.now.cells list) }
    ensures { result ≡ Whole (pos (length (values_in (slice_get heap.now.cells list)))) }
{
    Value::Int(list_in(heap, list).len() as i32)
}

/// Whether it has no entries.
pub(crate) fn is_empty_list(heap: &Heap, list: u32) -> Value
    requires within { list < length heap.now.cells }
    requires list { HasList (slice_get heap.now.cells list) }
    ensures { result ≡ Truth (is_empty_list product_limits heap.now.cells (values_in (slice_get heap.now.cells list))) }
{
    Value::Bool(list_in(heap, list).is_empty())
}

/// The entry at this position, which has to be a number; a negative one does not count from the end.
pub(crate) fn get(
    alloc: Global,
    heap: &mut Heap,
    list: u32,
    position: &Value,
) -> Result<Value, OpRefusal>
    requires within { list < length heap.old.cells }
    requires list { HasList (slice_get heap.old.cells list) }
    requires position { ValueBelow (length heap.old.cells) position.now }
    ensures answer { Answers (with_number product_limits heap.old.cells (kind heap.old.cells position.now) (entry_at product_limits heap.old.cells (values_in (slice_get heap.old.cells list)))) heap.old heap.new result }
    ensures leaves { Leaves heap.old heap.new result }
{
    match kind_of(heap, position) {
        Kind::Number(position) => entry_at(alloc, heap, list, position),
        _ => throw(heap, bad_argument(alloc)?),
    }
}

fn entry_at(alloc: Global, heap: &mut Heap, list: u32, position: i32) -> Result<Value, OpRefusal>
    requires within { list < length heap.old.cells }
    requires list { HasList (slice_get heap.old.cells list) }
    ensures answer { Answers (entry_at product_limits heap.old.cells (values_in (slice_get heap.old.cells list)) position) heap.old heap.new result }
    ensures leaves { Leaves heap.old heap.new result }
{
    let values = list_in(heap, list).as_slice();
    let size = values.len();
    if position < 0 || position >= size as i32 {
        return throw(heap, outside(alloc, position, size)?);
    }
    Ok(values[position as usize])
}

/// The first entry; of an empty list there is none.
pub(crate) fn first(alloc: Global, heap: &mut Heap, list: u32) -> Result<Value, OpRefusal>
    requires within { list < length heap.old.cells }
    requires list { HasList (slice_get heap.old.cells list) }
    ensures answer { Answers (first_of_list product_limits heap.old.cells (values_in (slice_get heap.old.cells list))) heap.old heap.new result }
    ensures leaves { Leaves heap.old heap.new result }
{
    match list_in(heap, list).as_slice() {
        [] => throw(heap, empty_list(alloc)?),
        [first, ..] => Ok(*first),
    }
}

/// The last entry; of an empty list there is none.
pub(crate) fn last(alloc: Global, heap: &mut Heap, list: u32) -> Result<Value, OpRefusal>
    requires within { list < length heap.old.cells }
    requires list { HasList (slice_get heap.old.cells list) }
    ensures answer { Answers (first_of_list product_limits heap.old.cells (reverse (values_in (slice_get heap.old.cells list)))) heap.old heap.new result }
    ensures leaves { Leaves heap.old heap.new result }
{
    match list_in(heap, list).as_slice() {
        [] => throw(heap, empty_list(alloc)?),
        [.., last] => Ok(*last),
    }
}

/// A new list of the entries in the other order.
pub(crate) fn reversed(alloc: Global, heap: &mut Heap, list: u32) -> Result<Value, OpRefusal>
    requires within { list < length heap.old.cells }
    requires list { HasList (slice_get heap.old.cells list) }
    ensures answer { Answers (new_list product_limits heap.old.cells (reverse (values_in (slice_get heap.old.cells list)))) heap.old heap.new result }
    ensures leaves { Leaves heap.old heap.new result }
{
    let mut values = list_in(heap, list).as_slice().to_vec(alloc)?;
    values.reverse();
    perform(heap, Effect::NewList(Values::from_vec(values)))
}

/// A new text of the texts of the entries with another text between them.
pub(crate) fn joined(
    alloc: Global,
    heap: &mut Heap,
    list: u32,
    between: &Value,
) -> Result<Value, OpRefusal>
    requires within { list < length heap.old.cells }
    requires list { HasList (slice_get heap.old.cells list) }
    requires between { ValueBelow (length heap.old.cells) between.now }
    ensures answer { Answers (with_text product_limits heap.old.cells (kind heap.old.cells between.now) (λ t. written product_limits heap.old.cells (joined_behind product_limits heap.old.cells t true (values_in (slice_get heap.old.cells list)) []))) heap.old heap.new result }
    ensures leaves { Leaves heap.old heap.new result }
{
    match kind_of(heap, between) {
        Kind::Text(between) => {
            let values = list_in(heap, list).as_slice();
            let text = joined_text(alloc, heap, values, between.as_slice())?;
            perform(heap, Effect::NewText(text))
        }
        _ => throw(heap, bad_argument(alloc)?),
    }
}

/// The texts of values with another text between them. `Limit` where that would be longer than a text may be, or a
/// value's own text meets one; no longer text is built then.
fn joined_text(
    alloc: Global,
    heap: &Heap,
    values: &[Value],
    between: &[u8],
) -> Result<Text, OpRefusal>
    requires { All (ValueBelow (length heap.now.cells)) values.now }
    ensures { IsWritten (joined_behind product_limits heap.now.cells between.now true values.now []) result }
{
    let mut text = Text::new(alloc);
    for (at, value) in values.iter().enumerate() {
        write_entry(heap, between, at == 0, value, &mut text)?;
    }
    Ok(text)
}

/// Writes the text of a value behind a text, and in front of it what stands between it and the one before.
fn write_entry(
    heap: &Heap,
    between: &[u8],
    is_first: bool,
    value: &Value,
    text: &mut Text,
) -> Result<(), OpRefusal>
    requires { ValueBelow (length heap.now.cells) value.now }
    ensures { Writes (joined_entry product_limits heap.now.cells between.now is_first value.now text.old) text.new result }
{
    if !is_first {
        write_bytes(between, text)?;
    }
    write_value(heap, value, text)
}
