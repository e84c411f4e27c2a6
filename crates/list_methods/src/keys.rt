//! The lists of the keys and of the values of a map.

ghost use Rattle.std.specs.Prelude.{◌≡◌, ◌+◌, ◌<◌, ◌≤◌, ◌^◌, IfOk, length, slice_get};
ghost use Rattle.std.specs.Map.{values_of};
ghost use Rattle.cell_heap.specs.Contents.{pairs_in};
ghost use Rattle.model_values.specs.Cells.{new_list, new_list_of};
ghost use Rattle.model_values.specs.Fitting.{HasMap};
ghost use Rattle.model_values.specs.Limits.{product_limits};
ghost use Rattle.model_values.specs.ListMethods.{key_cells, key_values};
ghost use Rattle.model_values.specs.TextMethods.{text_cells};
ghost use Rattle.value_view.specs.Answers.{Answers, Leaves};

use crate::contents::map_in;
use cell_heap::Heap;
use model_text::Texts;
use model_values::{Entries, Key, LimitKind, Value, Values};
use std::alloc::{AllocError, Global};
use value_ops::{Effect, MAX_CELLS, MAX_ENTRIES, perform};
use value_view::OpRefusal;

/// A new list of the keys in order; each text among them is a new text.
pub(crate) fn key_set(alloc: Global, heap: &mut Heap, map: u32) -> Result<Value, OpRefusal>
    requires within { map < length heap.old.cells }
    requires map { HasMap (slice_get heap.old.cells map) }
    ensures answer { Answers (new_list_of product_limits heap.old.cells (key_cells (pairs_in (slice_get heap.old.cells map))) (key_values (length heap.old.cells) (pairs_in (slice_get heap.old.cells map)))) heap.old heap.new result }
    ensures leaves { Leaves heap.old heap.new result }
{
    let entries = map_in(heap, map);
    if entries.len() > MAX_ENTRIES {
        return Err(OpRefusal::Limit(LimitKind::CollectionSize));
    }
    if heap.len() as usize >= MAX_CELLS {
        return Err(OpRefusal::Limit(LimitKind::Cells));
    }
    let (texts, values) = keys(alloc, heap.len(), entries)?;
    perform(heap, Effect::NewListOf(texts, values))
}

/// Copies of the keys that are texts, and all keys as values, where the first text is to have the cell with the number
/// `first`, and so on.
fn keys(alloc: Global, first: u32, entries: &Entries) -> Result<(Texts, Values), AllocError>
    requires { first + length entries.now < 2 ^ 32 }
    ensures texts { IfOk result (λ keys. text_cells keys.0 ≡ key_cells entries.now) }
    ensures values { IfOk result (λ keys. keys.1 ≡ key_values first entries.now) }
{
    let mut texts = Texts::new(alloc);
    let mut values = Vec::with_capacity(alloc, entries.len())?;
    for at in 0..entries.len() {
        match entries.entry_at(at) {
            Some((Key::Int(number), _)) => values.push(Value::Int(*number))?,
            Some((Key::Text(text), _)) => {
                values.push(Value::Cell(first + texts.len() as u32))?;
                texts.push(text.clone()?)?;
            }
            None => {}
        }
    }
    Ok((texts, Values::from_vec(values)))
}

/// A new list of the values in order.
pub(crate) fn values(alloc: Global, heap: &mut Heap, map: u32) -> Result<Value, OpRefusal>
    requires within { map < length heap.old.cells }
    requires map { HasMap (slice_get heap.old.cells map) }
    ensures answer { Answers (new_list product_limits heap.old.cells (values_of (pairs_in (slice_get heap.old.cells map)))) heap.old heap.new result }
    ensures leaves { Leaves heap.old heap.new result }
{
    let values = values_of(alloc, map_in(heap, map))?;
    perform(heap, Effect::NewList(values))
}

fn values_of(alloc: Global, entries: &Entries) -> Result<Values, AllocError>
    ensures { IfOk result (λ values. values ≡ values_of entries.now) }
{
    let mut values = Vec::with_capacity(alloc, entries.len())?;
    for at in 0..entries.len() {
        if let Some((_, value)) = entries.entry_at(at) {
            values.push(*value)?;
        }
    }
    Ok(Values::from_vec(values))
}
