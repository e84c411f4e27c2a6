//! The methods of maps, one function each, but for those that give lists.

ghost use Rattle.std.specs.Prelude.{◌≡◌, ◌<◌, is_some, length, pos, slice_get, slice_set, unwrap_or};
ghost use Rattle.std.specs.Map.{lookup, remove_entry};
ghost use Rattle.cell_heap.specs.Contents.{pairs_in};
ghost use Rattle.cell_heap.specs.Soundness.{ValueBelow};
ghost use Rattle.model_values.specs.Cells.{Gives, map_put};
ghost use Rattle.model_values.specs.Fitting.{HasMap};
ghost use Rattle.model_values.specs.Index.{key_of, map_at};
ghost use Rattle.model_values.specs.Keys.{same_key};
ghost use Rattle.model_values.specs.Kinds.{kind};
ghost use Rattle.model_values.specs.Limits.{product_limits};
ghost use Rattle.model_values.specs.ListMethods.{is_empty_list, old_or_null, with_key};
ghost use Rattle.model_values.specs.TextMethods.{flag_of};
ghost use Rattle.model_values.specs.declared.cell.Cell.TheVariants.{Map as MapCell};
ghost use Rattle.model_values.specs.declared.value.Value.TheVariants.{Bool as Truth, Int as Whole, Null};
ghost use Rattle.value_view.specs.Answers.{Answers, Leaves};

use crate::contents::map_in;
use crate::throws::throw;
use cell_heap::Heap;
use model_values::{Key, Value};
use std::alloc::Global;
use value_ops::{bad_key, key_of, put};
use value_view::{OpRefusal, kind_of};

/// How many entries it has.
pub(crate) fn map_size(heap: &Heap, map: u32) -> Value
    requires within { map < length heap.now.cells }
    requires map { HasMap (slice_get heap.now.cells map) }
    ensures { result ≡ Whole (pos (length (pairs_in (slice_get heap.now.cells map)))) }
{
    Value::Int(map_in(heap, map).len() as i32)
}

/// Whether it has no entries.
pub(crate) fn is_empty_map(heap: &Heap, map: u32) -> Value
    requires within { map < length heap.now.cells }
    requires map { HasMap (slice_get heap.now.cells map) }
    ensures { result ≡ Truth (is_empty_list product_limits heap.now.cells (pairs_in (slice_get heap.now.cells map))) }
{
    Value::Bool(map_in(heap, map).is_empty())
}

/// The value of a key, or null.
pub(crate) fn value_at(
    alloc: Global,
    heap: &mut Heap,
    map: u32,
    key: &Value,
) -> Result<Value, OpRefusal>
    requires within { map < length heap.old.cells }
    requires map { HasMap (slice_get heap.old.cells map) }
    requires key { ValueBelow (length heap.old.cells) key.now }
    ensures answer { Answers (map_at product_limits heap.old.cells (pairs_in (slice_get heap.old.cells map)) (key_of (kind heap.old.cells key.now))) heap.old heap.new result }
    ensures leaves { Leaves heap.old heap.new result }
{
    match key_of(&kind_of(heap, key))? {
        Some(key) => Ok(value_or_null(heap, map, &key)),
        None => throw(heap, bad_key(alloc)?),
    }
}

/// Whether an entry has this key.
pub(crate) fn contains_key(
    alloc: Global,
    heap: &mut Heap,
    map: u32,
    key: &Value,
) -> Result<Value, OpRefusal>
    requires within { map < length heap.old.cells }
    requires map { HasMap (slice_get heap.old.cells map) }
    requires key { ValueBelow (length heap.old.cells) key.now }
    ensures answer { Answers (with_key product_limits heap.old.cells (kind heap.old.cells key.now) (λ k. flag_of product_limits heap.old.cells (is_some (lookup (same_key k) (pairs_in (slice_get heap.old.cells map)))))) heap.old heap.new result }
    ensures leaves { Leaves heap.old heap.new result }
{
    match key_of(&kind_of(heap, key))? {
        Some(key) => Ok(Value::Bool(map_in(heap, map).get(&key).is_some())),
        None => throw(heap, bad_key(alloc)?),
    }
}

/// Gives a key a value, and gives the one that it had, or null.
pub(crate) fn put_value(
    alloc: Global,
    heap: &mut Heap,
    map: u32,
    key: &Value,
    value: Value,
) -> Result<Value, OpRefusal>
    requires within { map < length heap.old.cells }
    requires map { HasMap (slice_get heap.old.cells map) }
    requires key { ValueBelow (length heap.old.cells) key.now }
    requires value { ValueBelow (length heap.old.cells) value }
    ensures answer { Answers (with_key product_limits heap.old.cells (kind heap.old.cells key.now) (λ k. map_put product_limits heap.old.cells map (pairs_in (slice_get heap.old.cells map)) k value (old_or_null product_limits heap.old.cells (pairs_in (slice_get heap.old.cells map)) k))) heap.old heap.new result }
    ensures leaves { Leaves heap.old heap.new result }
{
    match key_of(&kind_of(heap, key))? {
        Some(key) => {
            let old = value_or_null(heap, map, &key);
            put(heap, map, key, value, old)
        }
        None => throw(heap, bad_key(alloc)?),
    }
}

/// Takes the entry with this key out, and gives its value, or null. The others keep their order.
pub(crate) fn remove(
    alloc: Global,
    heap: &mut Heap,
    map: u32,
    key: &Value,
) -> Result<Value, OpRefusal>
    requires within { map < length heap.old.cells }
    requires map { HasMap (slice_get heap.old.cells map) }
    requires key { ValueBelow (length heap.old.cells) key.now }
    ensures answer { Answers (with_key product_limits heap.old.cells (kind heap.old.cells key.now) (λ k. Gives (slice_set heap.old.cells map (MapCell (remove_entry (same_key k) (pairs_in (slice_get heap.old.cells map))))) (old_or_null product_limits heap.old.cells (pairs_in (slice_get heap.old.cells map)) k))) heap.old heap.new result }
    ensures leaves { Leaves heap.old heap.new result }
{
    match key_of(&kind_of(heap, key))? {
        Some(key) => {
            let old = value_or_null(heap, map, &key);
            let _ = heap.map_remove(map, &key);
            Ok(old)
        }
        None => throw(heap, bad_key(alloc)?),
    }
}

/// The value of a key, or null where no entry has it.
fn value_or_null(heap: &Heap, map: u32, key: &Key) -> Value
    requires within { map < length heap.now.cells }
    requires map { HasMap (slice_get heap.now.cells map) }
    ensures value { result ≡ unwrap_or (lookup (same_key key.now) (pairs_in (slice_get heap.now.cells map))) Null }
    ensures below { ValueBelow (length heap.now.cells) result }
{
    map_in(heap, map).get(key).unwrap_or(Value::Null)
}
