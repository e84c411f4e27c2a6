//! What is done in a row.
ghost use Rattle.std.specs.Prelude.{All, length};
ghost use Rattle.cell_heap.specs.Soundness.{ValueBelow};

use crate::cells::{nested, nth, read_text};
use crate::throws::{exception, throws};
use crate::views::{end_of_walk, view};
use cell_heap::Heap;
use model_values::{Cell, Class, Entries, Op, Value, Values};
use std::alloc::Global;
use value_operators::{apply, decremented, get_property, incremented, set_at, set_property};
use value_view::OpRefusal;

/// What a row gives: the value of a call, of an operator or of a property, a new cell, what a view reads or a walk gives, or
/// its first value. `None` where the receiver of a call has no such method.
pub fn answer(
    alloc: Global,
    heap: &mut Heap,
    order: &str,
    name: &str,
    values: &[Value],
) -> Result<Option<Value>, OpRefusal> {
    match order {
        "list_call" | "text_call" => call(alloc, heap, order, name, values),
        "op" => Ok(Some(operate(alloc, heap, name, values)?)),
        "property" | "set_property" | "set_at" => {
            Ok(Some(touch(alloc, heap, order, name, values)?))
        }
        "list" | "map" | "throwable" => Ok(Some(make(alloc, heap, order, name)?)),
        "nested" => Ok(Some(nested(alloc, heap, name)?)),
        "truth" | "equal" | "compared" => Ok(Some(view(heap, order, name, values)?)),
        "unknown_name" | "unknown_step" | "no_number" => {
            Ok(Some(throws(alloc, heap, order, name)?))
        }
        "new_exception" | "throw" => Ok(Some(exception(alloc, heap, order, values)?)),
        "walk_end" => end_of_walk(alloc, heap, name, values),
        _ => Ok(Some(nth(heap, values, 0))),
    }
}

/// Makes an empty list, an empty map, or a throwable of the step `error`, with a message or without one.
fn make(alloc: Global, heap: &mut Heap, order: &str, message: &str) -> Result<Value, OpRefusal> {
    let cell = match order {
        "list" => heap.new_cell(Cell::List(Values::new(alloc)))?,
        "map" => heap.new_cell(Cell::Map(Entries::new(alloc)))?,
        _ => {
            let message = if message.is_empty() {
                None
            } else {
                Some(read_text(alloc, message)?)
            };
            let class = Class::Abort;
            heap.new_cell(Cell::Thrown { class, message })?
        }
    };
    Ok(Value::Cell(cell))
}

/// Calls a method of a list or a map, or one of another value, with two arguments at most.
fn call(
    alloc: Global,
    heap: &mut Heap,
    order: &str,
    name: &str,
    values: &[Value],
) -> Result<Option<Value>, OpRefusal> {
    let on = nth(heap, values, 0);
    let (first, second) = (nth(heap, values, 1), nth(heap, values, 2));
    match values.len() {
        0 | 1 => called(alloc, heap, order, name, &on, &[]),
        2 => called(alloc, heap, order, name, &on, &[first]),
        _ => called(alloc, heap, order, name, &on, &[first, second]),
    }
}

/// Calls a method of a list or a map, or one of another value.
fn called(
    alloc: Global,
    heap: &mut Heap,
    order: &str,
    name: &str,
    on: &Value,
    args: &[Value],
) -> Result<Option<Value>, OpRefusal>
    requires on { ValueBelow (length heap.old.cells) on.now }
    requires args { All (ValueBelow (length heap.old.cells)) args.now }
{
    let mut count = 0;
    match order {
        "list_call" => list_methods::call(alloc, heap, on, name.as_bytes(), args, &mut count),
        _ => text_methods::call(alloc, heap, on, name.as_bytes(), args, &mut count),
    }
}

/// Applies an operator to one or two operands. A name that is none of an operator gives null.
fn operate(
    alloc: Global,
    heap: &mut Heap,
    name: &str,
    values: &[Value],
) -> Result<Value, OpRefusal> {
    let (a, b) = (nth(heap, values, 0), nth(heap, values, 1));
    match (name, op_named(name)) {
        ("Increment", _) => incremented(alloc, heap, &a),
        ("Decrement", _) => decremented(alloc, heap, &a),
        (_, Some(op)) => apply(alloc, heap, op, &a, &b),
        (_, None) => Ok(Value::Null),
    }
}

/// The operator of this name.
fn op_named(name: &str) -> Option<Op> {
    Some(match name {
        "Plus" => Op::Plus,
        "Minus" => Op::Minus,
        "Times" => Op::Times,
        "Mod" => Op::Mod,
        "Less" => Op::Less,
        "LessEqual" => Op::LessEqual,
        "Greater" => Op::Greater,
        "GreaterEqual" => Op::GreaterEqual,
        "Range" => Op::Range,
        "GetAt" => Op::GetAt,
        "Negative" => Op::Negative,
        "Positive" => Op::Positive,
        _ => return None,
    })
}

/// Reads or writes a property, or writes what stands at an index.
fn touch(
    alloc: Global,
    heap: &mut Heap,
    order: &str,
    name: &str,
    values: &[Value],
) -> Result<Value, OpRefusal> {
    let on = nth(heap, values, 0);
    let (first, second) = (nth(heap, values, 1), nth(heap, values, 2));
    match order {
        "property" => get_property(alloc, heap, &on, name.as_bytes()),
        "set_property" => set_property(alloc, heap, &on, name.as_bytes(), first),
        _ => set_at(alloc, heap, &on, &first, second),
    }
}
