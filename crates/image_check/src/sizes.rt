//! Heap bytes.

ghost use Rattle.std.specs.Prelude.{◌≡◌, ◌+◌, ◌-◌, ◌*◌, ◌^◌, length, min};
ghost use Rattle.model_values.specs.Cells.{key_bytes, entry_bytes, cell_bytes};
ghost use Rattle.image_check.specs.Cells.{are_small};

use model_text::Text;
use model_values::{Cell, Entries, Key};

/// The heap bytes of a cell with nothing in it, of an entry of a list and of a name that a closure sees.
const UNIT: u64 = 16;

/// The heap bytes of an entry of a map, without those of its key.
const ENTRY: u64 = 32;

/// Whether cells have together at most 4,611,686,018,427,387,904 heap bytes.
pub(crate) fn are_small(cells: &[Cell]) -> bool
    ensures { result ≡ are_small cells.now }
{
    let mut bytes = 0u64;
    for cell in cells {
        bytes = bytes.saturating_add(bytes_of(cell));
    }
    bytes <= 4611686018427387904
}

/// The heap bytes of a cell, or 18,446,744,073,709,551,615 where it has more.
fn bytes_of(cell: &Cell) -> u64
    ensures { result ≡ min (cell_bytes cell.now) (2 ^ 64 - 1) }
{
    match cell {
        Cell::Variable(_) => UNIT,
        Cell::Text(text) => with_text(text),
        Cell::List(values) => with_entries(values.len()),
        Cell::Map(entries) => UNIT.saturating_add(entries_bytes(entries)),
        Cell::Closure { env, .. } => with_entries(env.len()),
        Cell::Thrown { message, .. } => match message {
            None => UNIT,
            Some(text) => with_text(text),
        },
    }
}

fn with_text(text: &Text) -> u64
    ensures { result ≡ min (16 + length text.now) (2 ^ 64 - 1) }
{
    UNIT.saturating_add(text.len() as u64)
}

fn with_entries(count: usize) -> u64
    ensures { result ≡ min (16 + 16 * count) (2 ^ 64 - 1) }
{
    UNIT.saturating_add(UNIT.saturating_mul(count as u64))
}

fn entries_bytes(entries: &Entries) -> u64
    ensures { result ≡ min (entry_bytes entries.now) (2 ^ 64 - 1) }
{
    let mut bytes = 0u64;
    for at in 0..entries.len() {
        if let Some((key, _)) = entries.entry_at(at) {
            bytes = bytes.saturating_add(pair_bytes(key));
        }
    }
    bytes
}

/// The heap bytes of an entry of a map with this key, or 18,446,744,073,709,551,615 where it has more.
fn pair_bytes(key: &Key) -> u64
    ensures { result ≡ min (32 + key_bytes key.now) (2 ^ 64 - 1) }
{
    match key {
        Key::Int(_) => ENTRY,
        Key::Text(text) => ENTRY.saturating_add(text.len() as u64),
    }
}
