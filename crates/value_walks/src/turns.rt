//! What a turn of a walk begins with.

ghost use Rattle.std.specs.Prelude.{◌≡◌, ◌<◌, ◌^◌, [], Bool, IsTrue, true, false, length, IfOk, IfSome, OnOk, IfErr, None, Some, slice_get};
ghost use Rattle.cell_heap.specs.Soundness.{ValueBelow};
ghost use Rattle.model_run.specs.Calls.{element_size};
ghost use Rattle.model_values.specs.Cells.{no_room};
ghost use Rattle.model_values.specs.Kinds.{kind};
ghost use Rattle.model_values.specs.Limits.{product_limits};
ghost use Rattle.model_values.specs.TextMethods.{text_cells};
ghost use Rattle.model_values.specs.Walks.{entry_map, entry_turn, key_cell, key_value, turn};
ghost use Rattle.model_values.specs.declared.cell.Cell.TheVariants.{Map as MapCell};
ghost use Rattle.value_walks.specs.Turns.{PlaceBelow, TurnAnswers, TurnLeaves, has_turn, listed, place_turn};

use crate::place::{Place, place_in};
use cell_heap::Heap;
use model_text::{Text, Texts};
use model_values::{Cell, Entries, Key, LimitKind, Value};
use std::alloc::{AllocError, Global};
use value_ops::{MAX_BYTES, MAX_CELLS, new_cells};
use value_view::{Kind, OpRefusal, kind_of};

/// The heap bytes of a map with `key` and `value`.
const ENTRY_MAP: u64 = 88;

/// One value, or two.
#[derive(Clone, Copy, Debug, PartialEq, Eq)]
pub enum Parts {
    One(Value),
    Two(Value, Value),
}

impl Parts {
    /// The first of them.
    pub fn first(self) -> Value
        ensures { slice_get (listed self) 0 ≡ Some result }
    {
        match self {
            Parts::One(value) => value,
            Parts::Two(key, _) => key,
        }
    }
}

/// What a turn begins with.
#[derive(Clone, Copy, Debug, PartialEq, Eq)]
pub struct Turn {
    /// What the closure gets: one value; of a map, where the closure has two parameters, a key and its value.
    pub arguments: Parts,
    /// What was read: one value, or of a map a key and its value.
    pub element: Parts,
}

/// Turn `at` of a walk over a value, counted from 0, where `takes_two` says that the closure has two parameters.
/// `None` past the end: exactly there the walk has no such turn.
///
/// It reads the place as the value is now. A closure of two parameters gets the key and the value of an entry of a
/// map, another one a new map with `key` and `value`; a text key is a new text.
pub fn walk_turn(
    alloc: Global,
    heap: &mut Heap,
    on: &Value,
    takes_two: bool,
    at: u32,
) -> Result<Option<Turn>, OpRefusal>
    requires { ValueBelow (length heap.old.cells) on.now }
    ensures answer { TurnAnswers (turn product_limits heap.old.cells on.now takes_two at) heap.old heap.new result }
    ensures leaves { TurnLeaves heap.old heap.new result }
    ensures element { IfOk result (λ turn. IfSome turn (λ some. length (listed some.element) ≡ element_size (kind heap.old.cells on.now))) }
{
    let place = place_in(heap, on, at)?;
    begin(alloc, heap, takes_two, place)
}

/// Whether a walk over a value has this turn, be it that a limit is met as it begins. It makes no cell and takes no
/// memory.
pub fn has_walk_turn(heap: &Heap, on: &Value, at: u32) -> bool
    requires { ValueBelow (length heap.now.cells) on.now }
    ensures has { (two : Bool) → result ≡ has_turn (turn product_limits heap.now.cells on.now two at) }
    ensures small { IsTrue result → at < 2 ^ 31 }
{
    match kind_of(heap, on) {
        Kind::List(_, values) => (at as usize) < values.len(),
        Kind::Map(_, entries) => (at as usize) < entries.len(),
        Kind::Number(number) => i64::from(at) < i64::from(number),
        _ => false,
    }
}

/// Begins a turn with what was read, and makes the cells that it needs.
pub(crate) fn begin(
    alloc: Global,
    heap: &mut Heap,
    takes_two: bool,
    place: Place,
) -> Result<Option<Turn>, OpRefusal>
    requires { PlaceBelow (length heap.old.cells) place }
    ensures answer { TurnAnswers (place_turn heap.old.cells takes_two place) heap.old heap.new result }
    ensures leaves { TurnLeaves heap.old heap.new result }
{
    match place {
        Place::Past => Ok(None),
        Place::Value(value) => Ok(Some(one(value))),
        Place::Character(text) => Ok(Some(one(Value::Cell(heap.new_cell(Cell::Text(text))?)))),
        Place::Entry(key, value) => {
            if takes_two {
                entry_in_two(heap, key, value)
            } else {
                entry_in_one(alloc, heap, key, value)
            }
        }
    }
}

/// A turn over one value.
fn one(value: Value) -> Turn
    ensures { result ≡ record { arguments = Parts.One value; element = Parts.One value } }
{
    Turn {
        arguments: Parts::One(value),
        element: Parts::One(value),
    }
}

/// An entry of a map for a closure of two parameters.
fn entry_in_two(heap: &mut Heap, key: Key, value: Value) -> Result<Option<Turn>, OpRefusal>
    requires { ValueBelow (length heap.old.cells) value }
    ensures answer { TurnAnswers (entry_turn product_limits heap.old.cells true (Some (key, value))) heap.old heap.new result }
    ensures leaves { TurnLeaves heap.old heap.new result }
{
    let key = match key {
        Key::Int(number) => {
            check_room(heap)?;
            Value::Int(number)
        }
        Key::Text(text) => Value::Cell(heap.new_cell(Cell::Text(text))?),
    };
    let entry = Parts::Two(key, value);
    Ok(Some(Turn {
        arguments: entry,
        element: entry,
    }))
}

/// Whether the heap passes a limit as it is. A heap that was made of saved cells may.
fn check_room(heap: &Heap) -> Result<(), LimitKind>
    ensures room { OnOk result (no_room product_limits heap.now.cells [] ≡ None) }
    ensures limit { IfErr result (λ limit. no_room product_limits heap.now.cells [] ≡ Some limit) }
{
    if heap.len() as usize > MAX_CELLS {
        return Err(LimitKind::Cells);
    }
    if heap.bytes() > MAX_BYTES {
        return Err(LimitKind::HeapBytes);
    }
    Ok(())
}

/// An entry of a map as a new map with `key` and `value`.
fn entry_in_one(
    alloc: Global,
    heap: &mut Heap,
    key: Key,
    value: Value,
) -> Result<Option<Turn>, OpRefusal>
    requires { ValueBelow (length heap.old.cells) value }
    ensures answer { TurnAnswers (entry_turn product_limits heap.old.cells false (Some (key, value))) heap.old heap.new result }
    ensures leaves { TurnLeaves heap.old heap.new result }
{
    let (texts, key) = key_parts(alloc, key, heap.len())?;
    let map = Cell::Map(entry_map(alloc, key, value)?);
    let map = new_cells(heap, texts, map, ENTRY_MAP)?;
    Ok(Some(Turn {
        arguments: Parts::One(map),
        element: Parts::Two(key, value),
    }))
}

/// The text that a key needs, and the key as a value, where a new cell would have the number `next`.
fn key_parts(alloc: Global, key: Key, next: u32) -> Result<(Texts, Value), AllocError>
    ensures texts { IfOk result (λ parts. text_cells parts.0 ≡ key_cell key) }
    ensures value { IfOk result (λ parts. parts.1 ≡ key_value next key) }
{
    let mut texts = Texts::new(alloc);
    match key {
        Key::Int(number) => Ok((texts, Value::Int(number))),
        Key::Text(text) => {
            texts.push(text)?;
            Ok((texts, Value::Cell(next)))
        }
    }
}

/// A map with `key` and `value`.
pub(crate) fn entry_map(alloc: Global, key: Value, value: Value) -> Result<Entries, AllocError>
    ensures { IfOk result (λ entries. MapCell entries ≡ entry_map key value) }
{
    let mut entries = Entries::new(alloc);
    entries.put(Key::Text(Text::from_str(alloc, "key")?), key)?;
    entries.put(Key::Text(Text::from_str(alloc, "value")?), value)?;
    Ok(entries)
}
