//! The call of a method by its name.

ghost use Rattle.std.specs.Prelude.{◌≡◌, ◌<◌, All, IfOk, is_some, length, slice_get};
ghost use Rattle.cell_heap.specs.Contents.{pairs_in, values_in};
ghost use Rattle.cell_heap.specs.Soundness.{ValueBelow};
ghost use Rattle.list_methods.specs.CollectionCalls.{collection_call, has_collection};
ghost use Rattle.method_names.specs.Names.{seen as table_method};
ghost use Rattle.model_values.specs.Equality.{equal};
ghost use Rattle.model_values.specs.Fitting.{HasList, HasMap};
ghost use Rattle.model_values.specs.Kinds.{items, kind, pairs};
ghost use Rattle.model_values.specs.Limits.{product_limits};
ghost use Rattle.model_values.specs.MethodTable.{own_method};
ghost use Rattle.model_values.specs.Methods.{equality_answer};
ghost use Rattle.model_values.specs.TextOf.{text_of, written};
ghost use Rattle.text_methods.specs.Calls.{CallAnswers, CallLeaves};
ghost use Rattle.value_view.specs.Answers.{Answers, CountedAnswers, Leaves};

use crate::keys::{key_set, values};
use crate::lists::{first, get, is_empty_list, joined, last, list_size, reversed};
use crate::maps::{contains_key, is_empty_map, map_size, put_value, remove, value_at};
use crate::search::{contains, index_of};
use cell_heap::Heap;
use method_names::Method;
use model_values::Value;
use std::alloc::Global;
use value_ops::{Effect, perform, push};
use value_view::{Kind, OpRefusal, equal, kind_of, text_of};

/// `on.name(args)` where the value is a list or a map and the method takes no closure. `None` exactly where the method
/// table has no method of this name for such a value with so many arguments; then nothing has changed. Each pair that
/// `equals`, `contains` and `indexOf` compare raises the count of evaluated nodes by one; no other method changes it.
///
/// A throw and a limit come as the table says. After `Memory` every cell is as it was.
pub fn call(
    alloc: Global,
    heap: &mut Heap,
    on: &Value,
    name: &[u8],
    args: &[Value],
    count: &mut u32,
) -> Result<Option<Value>, OpRefusal>
    requires on { ValueBelow (length heap.old.cells) on.now }
    requires args { All (ValueBelow (length heap.old.cells)) args.now }
    ensures answer { CallAnswers (collection_call heap.old.cells on.now name.now args.now count.old) heap.old heap.new count.old count.new result }
    ensures leaves { CallLeaves heap.old heap.new result }
    ensures named { IfOk result (λ value. is_some value ≡ has_collection (kind heap.old.cells on.now) name.now (length args.now)) }
{
    let Some(method) = Method::named(name) else {
        return Ok(None);
    };
    match kind_of(heap, on) {
        Kind::List(list, _) => of_list(alloc, heap, on, list, method, args, count),
        Kind::Map(map, _) => of_map(alloc, heap, on, map, method, args, count),
        _ => Ok(None),
    }
}

/// A method of the list in this cell, which is the value `on`.
fn of_list(
    alloc: Global,
    heap: &mut Heap,
    on: &Value,
    list: u32,
    method: Method,
    args: &[Value],
    count: &mut u32,
) -> Result<Option<Value>, OpRefusal>
    requires on { ValueBelow (length heap.old.cells) on.now }
    requires within { list < length heap.old.cells }
    requires list { HasList (slice_get heap.old.cells list) }
    requires args { All (ValueBelow (length heap.old.cells)) args.now }
    ensures answer { CallAnswers (own_method product_limits heap.old.cells on.now (items list (values_in (slice_get heap.old.cells list))) (table_method method) args.now count.old) heap.old heap.new count.old count.new result }
    ensures leaves { CallLeaves heap.old heap.new result }
{
    match args {
        [] => match method {
            Method::ToString => Ok(Some(text(alloc, heap, on)?)),
            Method::Size => Ok(Some(list_size(heap, list))),
            Method::IsEmpty => Ok(Some(is_empty_list(heap, list))),
            Method::First => Ok(Some(first(alloc, heap, list)?)),
            Method::Last => Ok(Some(last(alloc, heap, list)?)),
            Method::Reverse => Ok(Some(reversed(alloc, heap, list)?)),
            _ => Ok(None),
        },
        [argument] => match method {
            Method::Equals => Ok(Some(equals(heap, on, argument, count)?)),
            Method::Contains => Ok(Some(contains(heap, list, argument, count)?)),
            Method::IndexOf => Ok(Some(index_of(heap, list, argument, count)?)),
            Method::Add => Ok(Some(push(heap, list, *argument)?)),
            Method::Get => Ok(Some(get(alloc, heap, list, argument)?)),
            Method::Join => Ok(Some(joined(alloc, heap, list, argument)?)),
            _ => Ok(None),
        },
        _ => Ok(None),
    }
}

/// A method of the map in this cell, which is the value `on`.
fn of_map(
    alloc: Global,
    heap: &mut Heap,
    on: &Value,
    map: u32,
    method: Method,
    args: &[Value],
    count: &mut u32,
) -> Result<Option<Value>, OpRefusal>
    requires on { ValueBelow (length heap.old.cells) on.now }
    requires within { map < length heap.old.cells }
    requires map { HasMap (slice_get heap.old.cells map) }
    requires args { All (ValueBelow (length heap.old.cells)) args.now }
    ensures answer { CallAnswers (own_method product_limits heap.old.cells on.now (pairs map (pairs_in (slice_get heap.old.cells map))) (table_method method) args.now count.old) heap.old heap.new count.old count.new result }
    ensures leaves { CallLeaves heap.old heap.new result }
{
    match args {
        [] => match method {
            Method::ToString => Ok(Some(text(alloc, heap, on)?)),
            Method::Size => Ok(Some(map_size(heap, map))),
            Method::IsEmpty => Ok(Some(is_empty_map(heap, map))),
            Method::KeySet => Ok(Some(key_set(alloc, heap, map)?)),
            Method::Values => Ok(Some(values(alloc, heap, map)?)),
            _ => Ok(None),
        },
        [argument] => match method {
            Method::Equals => Ok(Some(equals(heap, on, argument, count)?)),
            Method::Get => Ok(Some(value_at(alloc, heap, map, argument)?)),
            Method::ContainsKey => Ok(Some(contains_key(alloc, heap, map, argument)?)),
            Method::Remove => Ok(Some(remove(alloc, heap, map, argument)?)),
            _ => Ok(None),
        },
        [key, value] => match method {
            Method::Put => Ok(Some(put_value(alloc, heap, map, key, *value)?)),
            _ => Ok(None),
        },
        _ => Ok(None),
    }
}

/// The text of a value, as a new text.
fn text(alloc: Global, heap: &mut Heap, on: &Value) -> Result<Value, OpRefusal>
    requires { ValueBelow (length heap.old.cells) on.now }
    ensures answer { Answers (written product_limits heap.old.cells (text_of product_limits heap.old.cells on.now)) heap.old heap.new result }
    ensures leaves { Leaves heap.old heap.new result }
{
    let text = text_of(alloc, heap, on)?;
    perform(heap, Effect::NewText(text))
}

/// Whether a value equals another; each pair that is compared is counted.
fn equals(heap: &Heap, on: &Value, other: &Value, count: &mut u32) -> Result<Value, OpRefusal>
    requires on { ValueBelow (length heap.now.cells) on.now }
    requires other { ValueBelow (length heap.now.cells) other.now }
    ensures { CountedAnswers (equality_answer product_limits heap.now.cells (equal product_limits heap.now.cells on.now other.now count.old)) heap.now heap.now count.new result }
{
    Ok(Value::Bool(equal(heap, on, other, count)?))
}
