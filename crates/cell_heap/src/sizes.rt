//! Heap bytes of keys and cells.

ghost use Rattle.std.specs.Prelude.{◌≡◌, ◌+◌, ◌-◌, ◌*◌, ◌^◌, length, min};
ghost use Rattle.model_values.specs.Cells.{key_bytes, entry_bytes, cell_bytes};

use model_text::Text;
use model_values::{Cell, Entries, Key};

/// The heap bytes of a cell with nothing in it.
const CELL: u64 = 16;

/// The heap bytes of an entry of a list, and of a name that a closure sees.
pub(crate) const LIST_ENTRY: u64 = 16;

/// The heap bytes of an entry of a map, without those of its key.
const MAP_ENTRY: u64 = 32;

/// The heap bytes of an entry of a map with this key, or 18,446,744,073,709,551,615 where it has more.
pub(crate) fn pair_bytes(key: &Key) -> u64
    ensures { result ≡ min (32 + key_bytes key.now) (2 ^ 64 - 1) }
{
    match key {
        Key::Int(_) => MAP_ENTRY,
        Key::Text(text) => MAP_ENTRY.saturating_add(text.len() as u64),
    }
}

/// The heap bytes of a cell, or 18,446,744,073,709,551,615 where it has more.
pub(crate) fn bytes_of(cell: &Cell) -> u64
    ensures { result ≡ min (cell_bytes cell.now) (2 ^ 64 - 1) }
{
    match cell {
        Cell::Variable(_) => CELL,
        Cell::Text(text) => with_text(text),
        Cell::List(values) => with_entries(values.len()),
        Cell::Map(entries) => CELL.saturating_add(entries_bytes(entries)),
        Cell::Closure { env, .. } => with_entries(env.len()),
        Cell::Thrown { message, .. } => match message {
            None => CELL,
            Some(text) => with_text(text),
        },
    }
}

fn with_text(text: &Text) -> u64
    ensures { result ≡ min (16 + length text.now) (2 ^ 64 - 1) }
{
    CELL.saturating_add(text.len() as u64)
}

fn with_entries(count: usize) -> u64
    ensures { result ≡ min (16 + 16 * count) (2 ^ 64 - 1) }
{
    CELL.saturating_add(LIST_ENTRY.saturating_mul(count as u64))
}

fn entries_bytes(entries: &Entries) -> u64
    ensures { result ≡ min (entry_bytes entries.now) (2 ^ 64 - 1) }
{
    let mut bytes = 0u64;
    for at in 0..entries.len() {
        if let Some((key, _)) = entries.entry_at(at) {
            bytes = bytes.saturating_add(pair_bytes(key));
        }
    }
    bytes
}
