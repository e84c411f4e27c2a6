//! What a cell holds.

ghost use Rattle.std.specs.Prelude.{◌≡◌, ◌<◌, ◌^◌, All, length, slice_get};
ghost use Rattle.cell_heap.specs.Contents.{pairs_in, values_in};
ghost use Rattle.cell_heap.specs.Soundness.{ValueBelow};
ghost use Rattle.model_values.specs.Fitting.{HasList, HasMap};

use cell_heap::Heap;
use model_values::{Cell, Entries, Values};

/// The entries of the list in this cell.
pub(crate) fn list_in(heap: &Heap, list: u32) -> &Values
    requires within { list < length heap.now.cells }
    requires list { HasList (slice_get heap.now.cells list) }
    ensures values { result.now ≡ values_in (slice_get heap.now.cells list) }
    ensures below { All (ValueBelow (length heap.now.cells)) result.now }
    ensures few { length result.now < 2 ^ 31 }
{
    match heap.get(list) {
        Cell::List(values) => values,
        _ => unreachable!(),
    }
}

/// The entries of the map in this cell.
pub(crate) fn map_in(heap: &Heap, map: u32) -> &Entries
    requires within { map < length heap.now.cells }
    requires map { HasMap (slice_get heap.now.cells map) }
    ensures entries { result.now ≡ pairs_in (slice_get heap.now.cells map) }
    ensures below { All (λ entry. ValueBelow (length heap.now.cells) entry.1) result.now }
    ensures few { length result.now < 2 ^ 31 }
{
    match heap.get(map) {
        Cell::Map(entries) => entries,
        _ => unreachable!(),
    }
}
