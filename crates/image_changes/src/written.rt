//! Cells that are new or were changed.

ghost use Rattle.std.specs.Prelude.{◌≡◌, ◌++◌, ◌∷◌, ◌≤◌, [], IfOk, None, OnOk, Some, drop, length, slice_get};
ghost use Rattle.std.specs.List.{IsDistinct};
ghost use Rattle.std.specs.Map.{keys_of, lookup};
ghost use Rattle.std.specs.Option.{option_copied};
ghost use Rattle.model_values.specs.Keys.{same_key};
ghost use Rattle.model_values.specs.declared.cell.Cell.TheVariants.{List as ListCell, Map as MapCell};
ghost use Rattle.image_changes.specs.Growing.{CellChanges};

use crate::same::{Same, begins_with};
use delta_form::WrittenCell;
use model_text::Sequence;
use model_values::{Cell, Entries, Value};
use std::alloc::{AllocError, Global};

/// What makes the cell of what stood, as short as it can be written, or nothing where it stood so.
pub(crate) fn written_cell(
    alloc: Global,
    stood: Option<&Cell>,
    cell: &Cell,
) -> Result<Option<WrittenCell>, AllocError>
    ensures { IfOk result (CellChanges (option_copied stood.entry) cell.now) }
{
    match (stood, cell) {
        (Some(Cell::List(had)), Cell::List(has)) => {
            written_list(alloc, had.as_slice(), has.as_slice())
        }
        (Some(Cell::Map(had)), Cell::Map(has)) => written_map(alloc, had, has),
        (Some(old), _) if old.is_same(cell) => Ok(None),
        _ => Ok(Some(WrittenCell::Whole(copied_cell(cell)?))),
    }
}

/// The same cell once more.
fn copied_cell(cell: &Cell) -> Result<Cell, AllocError>
    ensures { IfOk result (λ copy. copy ≡ cell.now) }
{
    let copy = cell.clone()?;
    Ok(copy)
}

/// How a list is written that stood: by the values behind those that it had, where it has kept them all.
fn written_list(
    alloc: Global,
    had: &[Value],
    has: &[Value],
) -> Result<Option<WrittenCell>, AllocError>
    ensures { IfOk result (CellChanges (Some (ListCell had.now)) (ListCell has.now)) }
{
    match has.strip_prefix(had) {
        Some([]) => Ok(None),
        Some(more) => {
            let values = Sequence::from_slice(alloc, more)?;
            Ok(Some(WrittenCell::GrownList(values)))
        }
        None => {
            let values = Sequence::from_slice(alloc, has)?;
            Ok(Some(WrittenCell::Whole(Cell::List(values))))
        }
    }
}

/// How a map is written that stood: by the entries behind those that it had, where it has kept them all.
fn written_map(
    alloc: Global,
    had: &Entries,
    has: &Entries,
) -> Result<Option<WrittenCell>, AllocError>
    ensures { IfOk result (CellChanges (Some (MapCell had.now)) (MapCell has.now)) }
{
    if !begins_with(has, had) {
        let entries = has.clone()?;
        return Ok(Some(WrittenCell::Whole(Cell::Map(entries))));
    }
    if has.len() == had.len() {
        return Ok(None);
    }
    let entries = entries_from(alloc, has, had.len())?;
    Ok(Some(WrittenCell::GrownMap(entries)))
}

/// The entries from this one on once more.
fn entries_from(alloc: Global, entries: &Entries, first: usize) -> Result<Entries, AllocError>
    requires { first ≤ length entries.now }
    ensures copies { IfOk result (λ copies. copies ≡ drop first entries.now) }
    // It is a map, so no key stands twice.
    ensures distinct { IsDistinct same_key (keys_of entries.now) }
{
    let mut copies = Entries::new(alloc);
    for place in first..entries.len() {
        copy_entry(&mut copies, entries, place)?;
    }
    Ok(copies)
}

/// Puts the entry at this place behind the copies, none of which has its key.
fn copy_entry(copies: &mut Entries, entries: &Entries, place: usize) -> Result<(), AllocError>
    ensures { (entry : _) → slice_get entries.now place ≡ Some entry → lookup (same_key entry.0) copies.old ≡ None → OnOk result (copies.new ≡ copies.old ++ entry ∷ []) }
{
    let Some((key, value)) = entries.entry_at(place) else {
        return Ok(());
    };
    copies.put(key.clone()?, *value)?;
    Ok(())
}
