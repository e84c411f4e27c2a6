//! What is done to one cell.

ghost use Rattle.std.specs.Prelude.{◌≡◌, ◌∷◌, ◌++◌, [], ◌<◌, length, slice_set, Some, IfOk, OnOk, OnErr};
ghost use Rattle.std.specs.Map.{lookup, remove_entry};
ghost use Rattle.indexmap.specs.IndexMap.{insert_entry};
ghost use Rattle.model_values.specs.Keys.{same_key};
ghost use Rattle.model_values.specs.declared.cell.Cell.TheVariants.{List as ListCell, Map as MapCell};
ghost use Rattle.model_values.specs.Fitting.{HasText, HasList, HasMap};
ghost use Rattle.cell_heap.specs.Contents.{text_in, values_in, pairs_in};

use model_text::Text;
use model_values::{Cell, Entries, Key, Value, Values};
use std::alloc::AllocError;

/// The text in a cell.
pub(crate) fn text_of(cell: &Cell) -> &Text
    requires { HasText (Some cell.now) }
    ensures { result.now ≡ text_in (Some cell.now) }
{
    match cell {
        Cell::Text(text) => text,
        _ => unreachable!(),
    }
}

/// The entries of a list.
pub(crate) fn values_of(cell: &Cell) -> &Values
    requires { HasList (Some cell.now) }
    ensures { result.now ≡ values_in (Some cell.now) }
{
    match cell {
        Cell::List(values) => values,
        _ => unreachable!(),
    }
}

/// The entries of a map.
pub(crate) fn pairs_of(cell: &Cell) -> &Entries
    requires { HasMap (Some cell.now) }
    ensures { result.now ≡ pairs_in (Some cell.now) }
{
    match cell {
        Cell::Map(entries) => entries,
        _ => unreachable!(),
    }
}

/// Puts a value behind a list.
pub(crate) fn push(cell: &mut Cell, value: Value) -> Result<(), AllocError>
    requires { HasList (Some cell.old) }
    ensures pushed { OnOk result (cell.new ≡ ListCell (values_in (Some cell.old) ++ value ∷ [])) }
    ensures unchanged { OnErr result (cell.new ≡ cell.old) }
{
    match cell {
        Cell::List(values) => values.push(value),
        _ => unreachable!(),
    }
}

/// Puts a value in the place of an entry of a list.
pub(crate) fn set(cell: &mut Cell, at: u32, value: Value)
    requires list { HasList (Some cell.old) }
    requires within { at < length (values_in (Some cell.old)) }
    ensures { cell.new ≡ ListCell (slice_set (values_in (Some cell.old)) at value) }
{
    match cell {
        Cell::List(values) => values.set(at as usize, value),
        _ => unreachable!(),
    }
}

/// Gives a key of a map this value, and gives the one that it had.
pub(crate) fn put(cell: &mut Cell, key: Key, value: Value) -> Result<Option<Value>, AllocError>
    requires { HasMap (Some cell.old) }
    ensures old { IfOk result (λ old. old ≡ lookup (same_key key) (pairs_in (Some cell.old))) }
    ensures put { OnOk result (cell.new ≡ MapCell (insert_entry same_key (pairs_in (Some cell.old)) key value)) }
    ensures unchanged { OnErr result (cell.new ≡ cell.old) }
{
    match cell {
        Cell::Map(entries) => entries.put(key, value),
        _ => unreachable!(),
    }
}

/// Takes the entry with this key out of a map.
pub(crate) fn remove(cell: &mut Cell, key: &Key)
    requires { HasMap (Some cell.old) }
    ensures { cell.new ≡ MapCell (remove_entry (same_key key.now) (pairs_in (Some cell.old))) }
{
    match cell {
        Cell::Map(entries) => {
            let _ = entries.remove(key);
        }
        _ => unreachable!(),
    }
}
