//! The `for` over a value.

ghost use Rattle.std.specs.Prelude.{◌≡◌, ◌+◌, ◌<◌, ◌≤◌, ◌^◌, ◌∷◌, [], false, ℕ, IfOk, drop, if◌then◌else◌, length, nat_eq, slice_get};
ghost use Rattle.cell_heap.specs.Soundness.{ValueBelow};
ghost use Rattle.model_values.specs.Characters.{characters, part_of};
ghost use Rattle.model_values.specs.Kinds.{cell_kind, kind};
ghost use Rattle.model_values.specs.Limits.{product_limits};
ghost use Rattle.model_values.specs.Walks.{Past, Turns, character_turn, loop_turn};
ghost use Rattle.value_walks.specs.Places.{BeginsAt, IsLoopPlace};
ghost use Rattle.value_walks.specs.Turns.{BeginsTurn, PlaceBelow, TurnAnswers, TurnLeaves, has_turn, place_turn};

use crate::place::{Place, entry_at, value_at};
use crate::turns::{Turn, begin};
use cell_heap::Heap;
use model_text::Text;
use model_values::{Cell, Value};
use std::alloc::{AllocError, Global};
use value_view::{Kind, OpRefusal, character_range, kind_of};

/// How far a `for` over a value has come: its turn, counted from 0, and of a text the byte at which the character of
/// that turn begins.
#[derive(Clone, Copy, Debug, PartialEq, Eq)]
pub struct LoopPlace {
    pub at: u32,
    pub byte: usize,
}

impl LoopPlace {
    /// The place of turn `at`, in a text by its index ([`Heap::character_at`]).
    pub fn of(heap: &mut Heap, on: &Value, at: u32) -> LoopPlace
        requires { ValueBelow (length heap.old.cells) on.now }
        ensures at { result.at ≡ at }
        ensures place { IsLoopPlace (kind heap.old.cells on.now) at result.byte }
        ensures unchanged { heap.new ≡ heap.old }
    {
        let byte = match on {
            Value::Cell(cell) => byte_in(heap, *cell, at as usize),
            _ => 0,
        };
        LoopPlace { at, byte }
    }

    /// The place of the next turn.
    pub fn next(self, heap: &Heap, on: &Value) -> LoopPlace
        requires value { ValueBelow (length heap.now.cells) on.now }
        requires place { IsLoopPlace (kind heap.now.cells on.now) self.at self.byte }
        requires more { self.at + 1 < 2 ^ 32 }
        ensures at { result.at ≡ self.at + 1 }
        ensures place { IsLoopPlace (kind heap.now.cells on.now) result.at result.byte }
    {
        let byte = match kind_of(heap, on) {
            Kind::Text(text) => self.byte + character_at(text.as_slice(), self.byte).len(),
            _ => 0,
        };
        LoopPlace {
            at: self.at + 1,
            byte,
        }
    }
}

/// Whether a `for` over a value has this turn. It makes no cell and takes no memory.
pub fn has_loop_turn(heap: &Heap, on: &Value, place: LoopPlace) -> bool
    requires value { ValueBelow (length heap.now.cells) on.now }
    requires place { IsLoopPlace (kind heap.now.cells on.now) place.at place.byte }
    ensures { result ≡ has_turn (loop_turn product_limits heap.now.cells on.now place.at) }
{
    let at = place.at as usize;
    match kind_of(heap, on) {
        Kind::Null => false,
        Kind::List(_, values) => at < values.len(),
        Kind::Map(_, entries) => at < entries.len(),
        Kind::Text(text) => place.byte < text.len(),
        _ => at == 0,
    }
}

/// A turn of a `for` over a value. `None` past the end: exactly there the loop has no such turn.
///
/// Over null there is none, over a text each character has one, over a value that is no collection there is one turn
/// (Groovy); over a map there are maps with `key` and `value` (this product's own). The turn has one argument.
pub fn loop_turn(
    alloc: Global,
    heap: &mut Heap,
    on: &Value,
    place: LoopPlace,
) -> Result<Option<Turn>, OpRefusal>
    requires value { ValueBelow (length heap.old.cells) on.now }
    requires place { IsLoopPlace (kind heap.old.cells on.now) place.at place.byte }
    ensures answer { TurnAnswers (loop_turn product_limits heap.old.cells on.now place.at) heap.old heap.new result }
    ensures leaves { TurnLeaves heap.old heap.new result }
{
    let place = place_in_loop(alloc, heap, on, place)?;
    begin(alloc, heap, false, place)
}

/// What stands at a place of a value over which a loop goes.
fn place_in_loop(
    alloc: Global,
    heap: &Heap,
    on: &Value,
    place: LoopPlace,
) -> Result<Place, AllocError>
    requires value { ValueBelow (length heap.now.cells) on.now }
    requires place { IsLoopPlace (kind heap.now.cells on.now) place.at place.byte }
    ensures place { IfOk result (λ found. place_turn heap.now.cells false found ≡ loop_turn product_limits heap.now.cells on.now place.at) }
    ensures below { IfOk result (PlaceBelow (length heap.now.cells)) }
{
    match kind_of(heap, on) {
        Kind::Null => Ok(Place::Past),
        Kind::List(_, values) => Ok(value_at(values, place.at)),
        Kind::Map(_, entries) => entry_at(entries, place.at),
        Kind::Text(text) => character_in(alloc, text.as_slice(), place.byte),
        _ => Ok(whole_value(*on, place.at)),
    }
}

/// The character of a text that begins at a byte.
fn character_in(alloc: Global, text: &[u8], byte: usize) -> Result<Place, AllocError>
    requires { byte ≤ length text.now }
    ensures place { IfOk result (λ place. (n : ℕ) → BeginsAt text.now n byte → BeginsTurn (λ h two. character_turn product_limits h (slice_get (characters text.now) n)) place) }
    ensures below { IfOk result (λ place. (n : ℕ) → PlaceBelow n place) }
{
    if byte == text.len() {
        return Ok(Place::Past);
    }
    let character = Text::from_slice(alloc, character_at(text, byte))?;
    Ok(Place::Character(character))
}

/// The byte at which a character of the text in a cell begins, and behind the last one the length; 0 where the cell is
/// no text.
fn byte_in(heap: &mut Heap, cell: u32, at: usize) -> usize
    requires { cell < length heap.old.cells }
    ensures place { IsLoopPlace (cell_kind cell (slice_get heap.old.cells cell)) at result }
    ensures unchanged { heap.new ≡ heap.old }
{
    match heap.get(cell) {
        Cell::Text(_) => heap.character_at(cell, at),
        _ => 0,
    }
}

/// The bytes of the character that begins at a byte; none at the end of the text.
fn character_at(text: &[u8], byte: usize) -> &[u8]
    requires { byte ≤ length text.now }
    ensures { result.now ≡ part_of (drop byte text.now) 0 1 }
{
    character_range(&text[byte..], 0, 1)
}

/// A value that is no collection, in the one turn over it.
fn whole_value(on: Value, at: u32) -> Place
    ensures place { BeginsTurn (λ h two. if nat_eq at 0 then Turns h (on ∷ []) (on ∷ []) else Past) result }
    ensures below { (n : ℕ) → ValueBelow n on → PlaceBelow n result }
{
    if at == 0 {
        Place::Value(on)
    } else {
        Place::Past
    }
}
