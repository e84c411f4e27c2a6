//! A walk and the values that a saved build keeps of it.

ghost use Rattle.std.specs.Prelude.{◌≡◌, ◌++◌, ◌∷◌, [], ℕ, All, IfOk, IfSome, List, OnOk, is_some, length, true};
ghost use Rattle.cell_heap.specs.Soundness.{ValueBelow};
ghost use Rattle.method_names.specs.Names.{seen as table_method};
ghost use Rattle.model_run.specs.Calls.{element_size, walks};
ghost use Rattle.model_run.specs.FrameTable.{walk_further, walk_values};
ghost use Rattle.model_run.specs.Nesting.{ValuesFit, anything};
ghost use Rattle.model_values.specs.Kinds.{kind};
ghost use Rattle.model_values.specs.MethodNames.{Find, FindAll};
ghost use Rattle.model_values.specs.declared.cell.Cell.{Cell as HeldCell};
ghost use Rattle.model_values.specs.declared.value.Value.{Value as HeldValue};
ghost use Rattle.value_walks.specs.Turns.{listed};
ghost use Rattle.value_walks.specs.Walking.{frame_after, held_after, held_method, held_values, kept_between, walk_kept, walk_method};

use crate::{Parts, Tail, Walk, WalkInTurn};
use cell_heap::Heap;
use method_names::Method;
use model_values::{Value, Values};
use std::alloc::{AllocError, Global};
use value_view::{Kind, kind_of};

impl Parts {
    /// They as a list. `AllocError` where the memory was refused.
    pub fn into_values(self, alloc: Global) -> Result<Values, AllocError>
        ensures { IfOk result (λ values. values ≡ listed self) }
    {
        self.behind(Values::new(alloc))
    }

    /// These values, and behind them its own. `AllocError` where the memory was refused.
    fn behind(self, mut front: Values) -> Result<Values, AllocError>
        ensures { IfOk result (λ values. values ≡ front ++ listed self) }
    {
        match self {
            Parts::One(value) => front.push(value)?,
            Parts::Two(key, value) => {
                front.push(key)?;
                front.push(value)?;
            }
        }
        Ok(front)
    }
}

impl Walk {
    /// The walk that has kept these values from its turns so far, and `None` exactly where the method walks over
    /// nothing. Only `collect` and `findAll` keep any. It takes no memory.
    pub fn of(method: Method, kept: Tail) -> Option<Walk>
        ensures walks { is_some result ≡ walks (table_method method) }
        ensures method { IfSome result (λ walk. walk_method walk ≡ table_method method) }
        ensures kept { IfSome result (λ walk. walk_kept walk ≡ kept_between (table_method method) kept) }
    {
        match method {
            Method::Each => Some(Walk::Each),
            Method::Collect => Some(Walk::Collect(kept)),
            Method::Find => Some(Walk::Find),
            Method::FindAll => Some(Walk::FindAll(kept)),
            Method::Any => Some(Walk::Any),
            Method::Every => Some(Walk::Every),
            Method::Times => Some(Walk::Times),
            _ => None,
        }
    }
}

impl WalkInTurn {
    /// The walk whose turn runs, of what a saved build keeps of it: the method, the value over which it goes, and what it
    /// keeps behind that value, its closure and its position. It takes no memory.
    pub fn of(heap: &Heap, method: Method, on: &Value, kept: Tail) -> WalkInTurn
        requires on { ValueBelow (length heap.now.cells) on.now }
        requires walks { walks (table_method method) ≡ true }
        requires kept { ValuesFit anything (walk_further (table_method method)) (walk_values (table_method method)) kept }
        ensures method { held_method result ≡ table_method method }
        ensures values { held_values result ≡ kept }
        ensures after { (h : List HeldCell) (v : HeldValue) → held_after h result v ≡ frame_after h (table_method method) (element_size (kind heap.now.cells on.now)) kept v }
    {
        match method {
            Method::Each => WalkInTurn::Each,
            Method::Collect => WalkInTurn::Collect(kept),
            Method::Find => WalkInTurn::Find(parts_of(kept.as_slice())),
            Method::FindAll => found_before(heap, on, kept),
            Method::Any => WalkInTurn::Any,
            Method::Every => WalkInTurn::Every,
            Method::Times => WalkInTurn::Times,
            _ => unreachable!(),
        }
    }

    /// These values, and behind them what a saved build keeps of it. `AllocError` where the memory was refused.
    pub fn into_values(self, front: Values) -> Result<Values, AllocError>
        ensures { IfOk result (λ values. values ≡ front ++ held_values self) }
    {
        match self {
            WalkInTurn::Collect(kept) => kept.into_values(front),
            WalkInTurn::Find(arguments) => arguments.behind(front),
            WalkInTurn::FindAll(element, kept) => kept.into_values(element.behind(front)?),
            _ => Ok(front),
        }
    }
}

/// What the closure of `find` got: one value or two.
fn parts_of(kept: &[Value]) -> Parts
    requires { ValuesFit anything (walk_further Find) (walk_values Find) kept.now }
    ensures { listed result ≡ kept.now }
{
    if kept.len() == 1 {
        Parts::One(kept[0])
    } else {
        Parts::Two(kept[0], kept[1])
    }
}

/// `findAll` in a turn: the element is what is kept in front, of a map a key and its value.
fn found_before(heap: &Heap, on: &Value, kept: Tail) -> WalkInTurn
    requires on { ValueBelow (length heap.now.cells) on.now }
    requires kept { ValuesFit anything (walk_further FindAll) (walk_values FindAll) kept }
    ensures method { held_method result ≡ FindAll }
    ensures values { held_values result ≡ kept }
    ensures after { (h : List HeldCell) (v : HeldValue) → held_after h result v ≡ frame_after h FindAll (element_size (kind heap.now.cells on.now)) kept v }
{
    let values = kept.as_slice();
    let first = values[0];
    let is_map = matches!(kind_of(heap, on), Kind::Map(_, _));
    if is_map && values.len() > 1 {
        let second = values[1];
        WalkInTurn::FindAll(Parts::Two(first, second), kept.skip(2))
    } else {
        WalkInTurn::FindAll(Parts::One(first), kept.skip(1))
    }
}
