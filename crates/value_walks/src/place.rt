//! What stands at a place of a value, as it was read.

ghost use Rattle.std.specs.Prelude.{◌≡◌, ℕ, Bool, List, Some, All, if◌then◌else◌, int_lt, length, pos, slice_get, IfOk};
ghost use Rattle.cell_heap.specs.Soundness.{ValueBelow};
ghost use Rattle.model_values.specs.Limits.{product_limits};
ghost use Rattle.model_values.specs.Walks.{Past, element_turn, entry_turn, turn};
ghost use Rattle.model_values.specs.declared.cell.Cell.{Cell as HeldCell};
ghost use Rattle.model_values.specs.declared.value.Value.TheVariants.{Int as Whole};
ghost use Rattle.value_walks.specs.Turns.{BeginsTurn, PlaceBelow, place_turn};

use cell_heap::Heap;
use model_text::Text;
use model_values::{Entries, Key, Value, Values};
use std::alloc::AllocError;
use value_view::{Kind, kind_of};

/// What stands at a place of a value, as it was read.
#[derive(Drop)]
pub(crate) enum Place {
    /// Nothing: the place is past the end.
    Past,
    Value(Value),
    /// An entry of a map.
    Entry(Key, Value),
    /// A character of a text.
    Character(Text),
}

/// What stands at place `at` of a value over which a walk goes.
pub(crate) fn place_in(heap: &Heap, on: &Value, at: u32) -> Result<Place, AllocError>
    requires { ValueBelow (length heap.now.cells) on.now }
    ensures place { IfOk result (λ place. (two : Bool) → place_turn heap.now.cells two place ≡ turn product_limits heap.now.cells on.now two at) }
    ensures below { IfOk result (PlaceBelow (length heap.now.cells)) }
{
    match kind_of(heap, on) {
        Kind::List(_, values) => Ok(value_at(values, at)),
        Kind::Map(_, entries) => entry_at(entries, at),
        Kind::Number(number) => Ok(number_below(number, at)),
        _ => Ok(Place::Past),
    }
}

/// The entry of a list at a place.
pub(crate) fn value_at(values: &Values, at: u32) -> Place
    ensures place { BeginsTurn (λ h two. element_turn product_limits h (slice_get values.now at)) result }
    ensures below { (n : ℕ) → All (ValueBelow n) values.now → PlaceBelow n result }
{
    match values.get(at as usize) {
        Some(value) => Place::Value(*value),
        None => Place::Past,
    }
}

/// The entry of a map at a place. A text key is copied.
pub(crate) fn entry_at(entries: &Entries, at: u32) -> Result<Place, AllocError>
    ensures place { IfOk result (BeginsTurn (λ h two. entry_turn product_limits h two (slice_get entries.now at))) }
    ensures below { (n : ℕ) → All (λ entry. ValueBelow n entry.1) entries.now → IfOk result (PlaceBelow n) }
{
    match entries.entry_at(at as usize) {
        Some((key, value)) => Ok(Place::Entry(key.clone()?, *value)),
        None => Ok(Place::Past),
    }
}

/// The number `at`, where it is below another.
fn number_below(number: i32, at: u32) -> Place
    ensures place { BeginsTurn (λ h two. if int_lt (pos at) number then element_turn product_limits h (Some (Whole (pos at))) else Past) result }
    ensures below { (n : ℕ) → PlaceBelow n result }
{
    if i64::from(at) < i64::from(number) {
        Place::Value(Value::Int(at as i32))
    } else {
        Place::Past
    }
}
