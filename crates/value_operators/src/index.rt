//! An index and a property, read and written.

ghost use Rattle.std.specs.Prelude.{◌≡◌, ℕ, Some, None, List, All, length, IfOk};
ghost use Rattle.cell_heap.specs.Soundness.{ValueBelow};
ghost use Rattle.model_values.specs.Characters.{characters};
ghost use Rattle.model_values.specs.Index.{get_at, get_property, kind_at, kind_property, list_at, map_at, place_of, set_at, set_property, text_at};
ghost use Rattle.model_values.specs.Limits.{product_limits};
ghost use Rattle.model_values.specs.declared.cell.Cell.{Cell as HeldCell};
ghost use Rattle.model_values.specs.declared.key.Key.TheVariants.{Text as TextKey};
ghost use Rattle.value_view.specs.Answers.{Answers, Leaves};
ghost use Rattle.value_ops.specs.Effects.{EffectBelow, HasAnswer, IsReadAs, NamesNone};
ghost use Rattle.value_view.specs.Seen.{IsKindIn, seen};
ghost use Rattle.value_operators.specs.Targets.{IsTarget, TargetBelow, place_seen, target_answer};

use cell_heap::Heap;
use model_text::Text;
use model_values::{Entries, Key, Value};
use std::alloc::{AllocError, Global};
use value_ops::{
    Effect, bad_argument, bad_key, key_of, no_method, no_property, no_property_to_set, outside,
    perform, put,
};
use value_view::{Kind, OpRefusal, character_count, character_range, kind_of};

/// Where an index points.
#[derive(Clone, Copy)]
enum Place {
    /// At the entry of this number, counted from 0.
    At(usize),
    /// Behind the last entry.
    Past,
    /// In front of the first entry.
    Below,
}

/// What an assignment writes to.
#[derive(Drop)]
enum Target {
    /// The entry at this place of the list in this cell.
    Entry(u32, u32),
    /// The value of this key of the map in this cell.
    Key(u32, Key),
    /// Nothing: it throws.
    Nothing(Effect),
}

/// `a[b]`
pub fn get_at(alloc: Global, heap: &mut Heap, a: &Value, b: &Value) -> Result<Value, OpRefusal>
    requires left { ValueBelow (length heap.old.cells) a.now }
    requires right { ValueBelow (length heap.old.cells) b.now }
    ensures answer { Answers (get_at product_limits heap.old.cells a.now b.now) heap.old heap.new result }
    ensures leaves { Leaves heap.old heap.new result }
{
    let effect = element(alloc, &kind_of(heap, a), &kind_of(heap, b))?;
    perform(heap, effect)
}

/// `a[b] = value`, which gives the value.
pub fn set_at(
    alloc: Global,
    heap: &mut Heap,
    a: &Value,
    b: &Value,
    value: Value,
) -> Result<Value, OpRefusal>
    requires left { ValueBelow (length heap.old.cells) a.now }
    requires right { ValueBelow (length heap.old.cells) b.now }
    requires assigned { ValueBelow (length heap.old.cells) value }
    ensures answer { Answers (set_at product_limits heap.old.cells a.now b.now value) heap.old heap.new result }
    ensures leaves { Leaves heap.old heap.new result }
{
    let target = element_target(alloc, heap, a, b)?;
    assign(heap, target, value)
}

/// `a.name`
pub fn get_property(
    alloc: Global,
    heap: &mut Heap,
    a: &Value,
    name: &[u8],
) -> Result<Value, OpRefusal>
    requires { ValueBelow (length heap.old.cells) a.now }
    ensures answer { Answers (get_property product_limits heap.old.cells a.now name.now) heap.old heap.new result }
    ensures leaves { Leaves heap.old heap.new result }
{
    let effect = property(alloc, &kind_of(heap, a), name)?;
    perform(heap, effect)
}

/// `a.name = value`, which gives the value.
pub fn set_property(
    alloc: Global,
    heap: &mut Heap,
    a: &Value,
    name: &[u8],
    value: Value,
) -> Result<Value, OpRefusal>
    requires left { ValueBelow (length heap.old.cells) a.now }
    requires assigned { ValueBelow (length heap.old.cells) value }
    ensures answer { Answers (set_property product_limits heap.old.cells a.now name.now value) heap.old heap.new result }
    ensures leaves { Leaves heap.old heap.new result }
{
    let target = property_target(alloc, heap, a, name)?;
    assign(heap, target, value)
}

/// What `a[b]` does.
pub(crate) fn element(alloc: Global, on: &Kind<'_>, index: &Kind<'_>) -> Result<Effect, AllocError>
    ensures answer { IfOk result (HasAnswer (λ h. kind_at product_limits h (seen on.now) (seen index.now))) }
    ensures below { (n : ℕ) → IsKindIn n on.now → IfOk result (EffectBelow n) }
{
    match (on, index) {
        (Kind::List(_, values), Kind::Number(index)) => {
            list_entry(alloc, values.as_slice(), *index)
        }
        (Kind::Text(text), Kind::Number(index)) => character(alloc, text.as_slice(), *index),
        (Kind::Map(_, entries), key) => map_value(alloc, entries, key_of(key)?),
        (Kind::List(_, _), _) => bad_argument(alloc),
        (Kind::Text(_), _) => bad_argument(alloc),
        (on, _) => no_method(alloc, on, b"getAt"),
    }
}

/// An entry of a list.
fn list_entry(alloc: Global, values: &[Value], index: i32) -> Result<Effect, AllocError>
    ensures read { IfOk result (HasAnswer (λ h. list_at product_limits h values.now index (place_of index (length values.now)))) }
    ensures below { (n : ℕ) → All (ValueBelow n) values.now → IfOk result (EffectBelow n) }
{
    match place_of(index, values.len()) {
        Place::At(at) => Ok(Effect::Give(values.get(at).copied().unwrap_or(Value::Null))),
        Place::Past => Ok(Effect::Give(Value::Null)),
        Place::Below => outside(alloc, index, values.len()),
    }
}

/// A character of a text.
fn character(alloc: Global, text: &[u8], index: i32) -> Result<Effect, AllocError>
    ensures read { IfOk result (HasAnswer (λ h. text_at product_limits h (characters text.now) index (place_of index (length (characters text.now))))) }
    ensures below { IfOk result NamesNone }
{
    let count = character_count(text);
    match place_of(index, count) {
        Place::At(at) => {
            let character = character_range(text, at, at + 1);
            Ok(Effect::NewText(Text::from_slice(alloc, character)?))
        }
        _ => outside(alloc, index, count),
    }
}

/// The value of a key of a map.
fn map_value(alloc: Global, entries: &Entries, key: Option<Key>) -> Result<Effect, AllocError>
    ensures read { IfOk result (HasAnswer (λ h. map_at product_limits h entries.now key)) }
    ensures below { (n : ℕ) → All (λ entry. ValueBelow n entry.1) entries.now → IfOk result (EffectBelow n) }
{
    match key {
        Some(key) => Ok(Effect::Give(entries.get(&key).unwrap_or(Value::Null))),
        None => bad_key(alloc),
    }
}

/// What `a.name` does.
fn property(alloc: Global, on: &Kind<'_>, name: &[u8]) -> Result<Effect, AllocError>
    ensures answer { IfOk result (HasAnswer (λ h. kind_property product_limits h (seen on.now) name.now)) }
    ensures below { (n : ℕ) → IsKindIn n on.now → IfOk result (EffectBelow n) }
{
    match on {
        Kind::Map(_, entries) => {
            let key = Key::Text(Text::from_slice(alloc, name)?);
            map_value(alloc, entries, Some(key))
        }
        Kind::Thrown(_, _, message) if name == b"message".as_slice() => match message {
            None => Ok(Effect::Give(Value::Null)),
            Some(message) => Ok(Effect::NewText(message.clone()?)),
        },
        on => no_property(alloc, on, name),
    }
}

/// What `a[b] = value` writes to.
fn element_target(alloc: Global, heap: &Heap, a: &Value, b: &Value) -> Result<Target, OpRefusal>
    requires left { ValueBelow (length heap.now.cells) a.now }
    requires right { ValueBelow (length heap.now.cells) b.now }
    ensures read { IsTarget product_limits heap.now.cells (set_at product_limits heap.now.cells a.now b.now) result }
    ensures below { IfOk result (TargetBelow heap.now.cells) }
{
    let on = kind_of(heap, a);
    let index = kind_of(heap, b);
    match (&on, &index) {
        (Kind::List(cell, values), Kind::Number(index)) => {
            match place_of(*index, values.len()) {
                Place::At(at) => Ok(Target::Entry(*cell, at as u32)),
                _ => Ok(Target::Nothing(outside(alloc, *index, values.len())?)),
            }
        }
        (Kind::Map(cell, _), key) => match key_of(key)? {
            Some(key) => Ok(Target::Key(*cell, key)),
            None => Ok(Target::Nothing(bad_key(alloc)?)),
        },
        (Kind::List(_, _), _) => Ok(Target::Nothing(bad_argument(alloc)?)),
        (on, _) => Ok(Target::Nothing(no_method(alloc, on, b"putAt")?)),
    }
}

/// What `a.name = value` writes to.
fn property_target(alloc: Global, heap: &Heap, a: &Value, name: &[u8]) -> Result<Target, OpRefusal>
    requires { ValueBelow (length heap.now.cells) a.now }
    ensures read { IsTarget product_limits heap.now.cells (set_property product_limits heap.now.cells a.now name.now) result }
    ensures below { IfOk result (TargetBelow heap.now.cells) }
{
    match kind_of(heap, a) {
        Kind::Map(cell, _) => {
            let key = Key::Text(Text::from_slice(alloc, name)?);
            Ok(Target::Key(cell, key))
        }
        on => Ok(Target::Nothing(no_property_to_set(alloc, &on, name)?)),
    }
}

/// Writes a value, and gives it.
fn assign(heap: &mut Heap, target: Target, value: Value) -> Result<Value, OpRefusal>
    requires target { TargetBelow heap.old.cells target }
    requires assigned { ValueBelow (length heap.old.cells) value }
    ensures answer { Answers (target_answer product_limits heap.old.cells target value) heap.old heap.new result }
    ensures leaves { Leaves heap.old heap.new result }
{
    match target {
        Target::Entry(cell, at) => {
            heap.list_set(cell, at, value);
            Ok(value)
        }
        Target::Key(cell, key) => put(heap, cell, key, value, value),
        Target::Nothing(effect) => perform(heap, effect),
    }
}

/// Where an index points in so many entries: a negative one counts from the end (Groovy).
fn place_of(index: i32, count: usize) -> Place
    ensures { place_seen result ≡ place_of index count }
{
    let distance = index.unsigned_abs() as usize;
    if index >= 0 {
        if distance < count {
            Place::At(distance)
        } else {
            Place::Past
        }
    } else if distance <= count {
        Place::At(count - distance)
    } else {
        Place::Below
    }
}
