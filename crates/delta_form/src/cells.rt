//! Cells that are written: as bytes and back, and what they make of the cells that stood.

ghost use Rattle.std.specs.Prelude.{◌≡◌, Some, slice_get};
ghost use Rattle.delta_form.specs.After.{put_entry, written_cell};
ghost use Rattle.delta_form.specs.Applying.{Applies, Leaves, in_turn};
ghost use Rattle.delta_form.specs.WrittenCells.{written_cell_form, written_cell_lawful};

use crate::put::appended;
use crate::{DeltaRefusal, WrittenCell};
use byte_form::{Memory, put_u8, take_u8};
use field_form::{Field, FormRefusal};
use model_values::{Cell, Entries, Values};
use std::alloc::Global;

impl Field for WrittenCell {
    ghost form = { written_cell_form };

    ghost lawful = { written_cell_lawful };

    fn spell(&self, out: &mut Vec<u8>) -> Result<(), Memory> {
        match self {
            WrittenCell::Whole(cell) => cell.spell(out),
            WrittenCell::GrownList(values) => {
                put_u8(out, 6)?;
                values.spell(out)
            }
            WrittenCell::GrownMap(entries) => {
                put_u8(out, 7)?;
                entries.spell(out)
            }
        }
    }

    fn read(alloc: Global, bytes: &[u8], at: u64) -> Result<(WrittenCell, u64), FormRefusal> {
        let (kind, behind) = take_u8(bytes, at)?;
        match kind {
            6 => {
                let (values, behind) = Values::read(alloc, bytes, behind)?;
                Ok((WrittenCell::GrownList(values), behind))
            }
            7 => {
                let (entries, behind) = Entries::read(alloc, bytes, behind)?;
                Ok((WrittenCell::GrownMap(entries), behind))
            }
            _ => {
                let (cell, behind) = Cell::read(alloc, bytes, at)?;
                Ok((WrittenCell::Whole(cell), behind))
            }
        }
    }
}

/// The cell that a written one makes of what stood at its number. `Fault` where that is no list or map to which it can
/// be put behind, or a key would stand twice; `Memory` where there is none.
pub(crate) fn cell_now(stood: Option<Cell>, written: WrittenCell) -> Result<Cell, DeltaRefusal>
    ensures { Applies result (written_cell written stood) }
{
    match (written, stood) {
        (WrittenCell::Whole(cell), _) => Ok(cell),
        (WrittenCell::GrownList(values), Some(Cell::List(had))) => {
            Ok(Cell::List(appended(had, values)?))
        }
        (WrittenCell::GrownMap(entries), Some(Cell::Map(had))) => {
            Ok(Cell::Map(with_entries(had, &entries)?))
        }
        _ => Err(DeltaRefusal::Fault),
    }
}

/// The map with these entries behind. `Fault` where one has a key that stands already, `Memory` where there is none.
fn with_entries(map: Entries, entries: &Entries) -> Result<Entries, DeltaRefusal>
    ensures { Applies result (in_turn put_entry entries.now map) }
{
    let mut all = map;
    for place in 0..entries.len() {
        put_entry(&mut all, entries, place)?;
    }
    Ok(all)
}

/// Puts the entry at this place behind those of the map.
fn put_entry(map: &mut Entries, entries: &Entries, place: usize) -> Result<(), DeltaRefusal>
    ensures { (entry : _) → slice_get entries.now place ≡ Some entry → Leaves result map.new (put_entry entry map.old) }
{
    let Some((key, value)) = entries.entry_at(place) else {
        return Ok(());
    };
    match map.put(key.clone()?, *value)? {
        None => Ok(()),
        Some(_) => Err(DeltaRefusal::Fault),
    }
}
