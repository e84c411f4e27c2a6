//! New variables.

ghost use Rattle.std.specs.Prelude.{◌≡◌, ◌+◌, ◌*◌, ◌++◌, ◌≤◌, All, IfErr, List, OnOk, Some, length, map};
ghost use Rattle.cell_heap.specs.Follows.{Follows};
ghost use Rattle.cell_heap.specs.Soundness.{ValueBelow};
ghost use Rattle.cell_heap.specs.declared.refusal.CellRefusal.TheVariants.{Memory};
ghost use Rattle.model_values.specs.Cells.{heap_bytes, no_room};
ghost use Rattle.model_values.specs.Limits.{product_limits};
ghost use Rattle.model_values.specs.declared.cell.Cell.TheVariants.{Variable};
ghost use Rattle.model_values.specs.declared.value.Value.{Value as HeldValue};
ghost use Rattle.cps_frames.specs.Changes.{Done};
ghost use Rattle.cps_frames.specs.Standing.{standing};
ghost use Rattle.cps_frames.specs.declared.thread.ThreadState.{ThreadState as Thread};
ghost use Rattle.cps_calls.specs.Calls.{given_null, making};

use cell_heap::{CellRefusal, Heap};
use cps_frames::Shared;
use model_values::{Cell, LimitKind, Value};
use value_ops::{MAX_BYTES, MAX_CELLS};
use value_view::OpRefusal;

/// The heap bytes of a variable.
const VARIABLE: u64 = 16;

/// A new variable for each of these values, in cells in a row: all of them or none. `OpRefusal::Limit` where they pass a limit on
/// cells or, else, on heap bytes; `OpRefusal::Memory` where the memory was refused.
pub(crate) fn new_variables(shared: &mut Shared, values: &[Value]) -> Result<(), OpRefusal>
    requires { All (ValueBelow (length shared.old.heap.cells)) values.now }
    ensures done { (t : Thread) → Done (making values.now) (standing shared.old t) (given_null result) (standing shared.new t) }
    ensures few { OnOk result (length shared.old.heap.cells + length values.now ≤ 1048576) }
    ensures rest { shared.new ≡ record shared.old { heap = shared.new.heap } }
{
    check_room(&shared.heap, values.len())?;
    push_variables(&mut shared.heap, values)?;
    Ok(())
}

/// Whether so many new variables pass a limit.
fn check_room(heap: &Heap, count: usize) -> Result<(), LimitKind>
    ensures few { OnOk result (length heap.now.cells + count ≤ 1048576) }
    ensures small { OnOk result (heap_bytes heap.now.cells + 16 * count ≤ 268435456) }
    ensures limit { IfErr result (λ limit. (vs : List HeldValue) → length vs ≡ count → no_room product_limits heap.now.cells (map Variable vs) ≡ Some limit) }
{
    if (heap.len() as usize).saturating_add(count) > MAX_CELLS {
        return Err(LimitKind::Cells);
    }
    if heap.bytes().saturating_add(VARIABLE * count as u64) > MAX_BYTES {
        return Err(LimitKind::HeapBytes);
    }
    Ok(())
}

/// Makes these variables, for which there is room under the limits.
fn push_variables(heap: &mut Heap, values: &[Value]) -> Result<(), CellRefusal>
    requires values { All (ValueBelow (length heap.old.cells)) values.now }
    requires few { length heap.old.cells + length values.now ≤ 1048576 }
    requires small { heap_bytes heap.old.cells + 16 * length values.now ≤ 268435456 }
    ensures cells { OnOk result (heap.new.cells ≡ heap.old.cells ++ map Variable values.now) }
    ensures follows { Follows heap.old heap.new }
    ensures memory { IfErr result (λ refusal. refusal ≡ Memory) }
{
    for value in values {
        heap.new_cell(Cell::Variable(*value))?;
    }
    Ok(())
}
