//! What a walk keeps from turn to turn, and what it gives.

ghost use Rattle.std.specs.Prelude.{◌≡◌, ◌++◌, ◌∷◌, [], ℕ, All, IfOk, IfSome, OnOk, is_some, length};
ghost use Rattle.cell_heap.specs.Soundness.{ValueBelow};
ghost use Rattle.method_names.specs.Names.{seen as table_method};
ghost use Rattle.model_run.specs.Calls.{held_in_turn, walks};
ghost use Rattle.model_values.specs.Index.{key_of};
ghost use Rattle.model_values.specs.Kinds.{kind};
ghost use Rattle.model_values.specs.Limits.{product_limits};
ghost use Rattle.model_values.specs.MethodNames.{FindAll};
ghost use Rattle.model_values.specs.Walks.{all_found, at_end, found, kept_entries, with_entry};
ghost use Rattle.value_ops.specs.Effects.{EffectBelow, HasAnswer, effect_answer};
ghost use Rattle.value_view.specs.Answers.{Answers, Leaves};
ghost use Rattle.value_walks.specs.Turns.{PartsBelow, listed};
ghost use Rattle.value_walks.specs.Walking.{NextBelow, IsAfter, element_length, held_after, held_method, held_values, walk_kept, walk_method};

use crate::tail::Tail;
use crate::turns::{Parts, Turn, entry_map};
use cell_heap::Heap;
use method_names::Method;
use model_values::{Entries, Value, Values};
use std::alloc::{AllocError, Global};
use value_ops::{Effect, key_of, perform};
use value_view::{Kind, OpRefusal, kind_of, truth};

/// A walk between two turns: its method, and what it has collected or found.
#[derive(Drop)]
pub enum Walk {
    Each,
    Collect(Tail),
    Find,
    FindAll(Tail),
    Any,
    Every,
    Times,
}

/// A walk while the closure of a turn runs: its method, and what a saved build keeps of it.
#[derive(Drop)]
pub enum WalkInTurn {
    Each,
    Collect(Tail),
    /// What the closure got.
    Find(Parts),
    /// The element of the turn, and what was found before it.
    FindAll(Parts, Tail),
    Any,
    Every,
    Times,
}

/// A walk behind a turn.
#[derive(Drop)]
pub enum Next {
    /// It goes on with its next turn.
    GoesOn(Walk),
    /// It ends, with what this effect gives.
    Ends(Effect),
}

impl Walk {
    /// A walk before its first turn, and `None` exactly where the method walks over nothing. It takes no memory.
    pub fn begun(alloc: Global, method: Method) -> Option<Walk>
        ensures walks { is_some result ≡ walks (table_method method) }
        ensures begun { IfSome result (λ walk. (walk_method walk ≡ table_method method) × (walk_kept walk ≡ [])) }
    {
        Walk::of(method, Tail::new(alloc))
    }

    /// The walk while the closure of this turn runs. It takes no memory.
    pub fn in_turn(self, turn: &Turn) -> WalkInTurn
        ensures method { held_method result ≡ walk_method self }
        ensures values { held_values result ≡ held_in_turn (walk_method self) (listed turn.now.arguments) (listed turn.now.element) (walk_kept self) }
        ensures element { (held_method result ≡ FindAll) → element_length result ≡ length (listed turn.now.element) }
        ensures below { (n : ℕ) → All (ValueBelow n) (walk_kept self) → PartsBelow n turn.now.arguments → PartsBelow n turn.now.element → All (ValueBelow n) (held_values result) }
    {
        match self {
            Walk::Each => WalkInTurn::Each,
            Walk::Collect(values) => WalkInTurn::Collect(values),
            Walk::Find => WalkInTurn::Find(turn.arguments),
            Walk::FindAll(values) => WalkInTurn::FindAll(turn.element, values),
            Walk::Any => WalkInTurn::Any,
            Walk::Every => WalkInTurn::Every,
            Walk::Times => WalkInTurn::Times,
        }
    }

    /// What the walk gives once it went past the end: the value itself, what was collected or found, or what it has not
    /// found.
    pub fn at_end(self, alloc: Global, heap: &mut Heap, on: &Value) -> Result<Value, OpRefusal>
        requires on { ValueBelow (length heap.old.cells) on.now }
        requires kept { All (ValueBelow (length heap.old.cells)) (walk_kept self) }
        ensures answer { Answers (at_end product_limits heap.old.cells (walk_method self) on.now (walk_kept self)) heap.old heap.new result }
        ensures leaves { Leaves heap.old heap.new result }
    {
        let effect = self.result(alloc, heap, on)?;
        perform(heap, effect)
    }
}

impl Walk {
    /// What the walk does once it went past the end.
    fn result(self, alloc: Global, heap: &Heap, on: &Value) -> Result<Effect, AllocError>
        requires on { ValueBelow (length heap.now.cells) on.now }
        requires kept { All (ValueBelow (length heap.now.cells)) (walk_kept self) }
        ensures answer { IfOk result (λ effect. effect_answer product_limits heap.now.cells effect ≡ at_end product_limits heap.now.cells (walk_method self) on.now (walk_kept self)) }
        ensures below { IfOk result (EffectBelow (length heap.now.cells)) }
    {
        match self {
            Walk::Each => Ok(Effect::Give(*on)),
            Walk::Collect(values) => Ok(Effect::NewList(values.into_values(Values::new(alloc))?)),
            Walk::FindAll(values) => all_found(alloc, heap, on, values),
            Walk::Any => Ok(Effect::Give(Value::Bool(false))),
            Walk::Every => Ok(Effect::Give(Value::Bool(true))),
            Walk::Find => Ok(Effect::Give(Value::Null)),
            Walk::Times => Ok(Effect::Give(Value::Null)),
        }
    }
}

/// What `findAll` found: of a map a new map, of any other value a new list.
fn all_found(alloc: Global, heap: &Heap, on: &Value, kept: Tail) -> Result<Effect, AllocError>
    requires on { ValueBelow (length heap.now.cells) on.now }
    requires kept { All (ValueBelow (length heap.now.cells)) kept }
    ensures answer { IfOk result (λ effect. effect_answer product_limits heap.now.cells effect ≡ all_found product_limits heap.now.cells (kind heap.now.cells on.now) kept) }
    ensures below { IfOk result (EffectBelow (length heap.now.cells)) }
{
    match kind_of(heap, on) {
        Kind::Map(_, _) => Ok(Effect::NewMap(kept_entries(alloc, heap, kept.as_slice())?)),
        _ => Ok(Effect::NewList(kept.into_values(Values::new(alloc))?)),
    }
}

/// The entries whose keys and values were kept in turn. A text key is copied.
fn kept_entries(alloc: Global, heap: &Heap, kept: &[Value]) -> Result<Entries, AllocError>
    requires { All (ValueBelow (length heap.now.cells)) kept.now }
    ensures entries { IfOk result (λ entries. entries ≡ kept_entries product_limits heap.now.cells [] kept.now) }
    ensures below { IfOk result (All (λ entry. ValueBelow (length heap.now.cells) entry.1)) }
{
    let mut entries = Entries::new(alloc);
    for pair in 0..kept.len() / 2 {
        put_entry(heap, &mut entries, &kept[2 * pair], kept[2 * pair + 1])?;
    }
    Ok(entries)
}

/// Puts a kept key with its value to the entries. A value that is no key puts nothing.
fn put_entry(
    heap: &Heap,
    entries: &mut Entries,
    key: &Value,
    value: Value,
) -> Result<(), AllocError>
    requires { ValueBelow (length heap.now.cells) key.now }
    ensures put { OnOk result (entries.new ≡ with_entry product_limits heap.now.cells entries.old (key_of (kind heap.now.cells key.now)) value) }
{
    if let Some(key) = key_of(&kind_of(heap, key))? {
        entries.put(key, value)?;
    }
    Ok(())
}

impl WalkInTurn {
    /// The walk behind the turn, whose closure gave this value: `collect` keeps the value, `findAll` the element where
    /// the value is true; `find` and `any` end where it is true, `every` where it is false (Groovy's truth).
    pub fn after(self, alloc: Global, heap: &Heap, value: &Value) -> Result<Next, AllocError>
        requires value { ValueBelow (length heap.now.cells) value.now }
        requires held { All (ValueBelow (length heap.now.cells)) (held_values self) }
        ensures after { IfOk result (IsAfter heap.now.cells (held_method self) (held_after heap.now.cells self value.now)) }
        ensures below { IfOk result (NextBelow (length heap.now.cells)) }
    {
        let is_true = truth(heap, value);
        match self {
            WalkInTurn::Each => Ok(Next::GoesOn(Walk::Each)),
            WalkInTurn::Times => Ok(Next::GoesOn(Walk::Times)),
            WalkInTurn::Collect(values) => Ok(Next::GoesOn(Walk::Collect(with(values, *value)?))),
            WalkInTurn::Find(arguments) => {
                if is_true {
                    Ok(Next::Ends(found(alloc, arguments)?))
                } else {
                    Ok(Next::GoesOn(Walk::Find))
                }
            }
            WalkInTurn::FindAll(element, values) => {
                if is_true {
                    Ok(Next::GoesOn(Walk::FindAll(with_element(values, element)?)))
                } else {
                    Ok(Next::GoesOn(Walk::FindAll(values)))
                }
            }
            WalkInTurn::Any => {
                if is_true {
                    Ok(Next::Ends(Effect::Give(Value::Bool(true))))
                } else {
                    Ok(Next::GoesOn(Walk::Any))
                }
            }
            WalkInTurn::Every => {
                if is_true {
                    Ok(Next::GoesOn(Walk::Every))
                } else {
                    Ok(Next::Ends(Effect::Give(Value::Bool(false))))
                }
            }
        }
    }
}

/// These values with one behind.
fn with(mut values: Tail, value: Value) -> Result<Tail, AllocError>
    ensures { IfOk result (λ more. more ≡ values ++ value ∷ []) }
{
    values.push(value)?;
    Ok(values)
}

/// These values with an element behind.
fn with_element(values: Tail, element: Parts) -> Result<Tail, AllocError>
    ensures { IfOk result (λ more. more ≡ values ++ listed element) }
{
    match element {
        Parts::One(value) => with(values, value),
        Parts::Two(key, value) => with(with(values, key)?, value),
    }
}

/// What `find` gives: what the closure got; of two values a new map with `key` and `value`.
fn found(alloc: Global, arguments: Parts) -> Result<Effect, AllocError>
    ensures answer { IfOk result (HasAnswer (λ h. found product_limits h (listed arguments))) }
    ensures below { (n : ℕ) → All (ValueBelow n) (listed arguments) → IfOk result (EffectBelow n) }
{
    match arguments {
        Parts::One(value) => Ok(Effect::Give(value)),
        Parts::Two(key, value) => Ok(Effect::NewMap(entry_map(alloc, key, value)?)),
    }
}
