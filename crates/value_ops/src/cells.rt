//! Several new cells at once: all of them or none.

ghost use Rattle.std.specs.Prelude.{◌≡◌, ◌+◌, ◌-◌, ◌∷◌, ◌++◌, ◌^◌, ◌≤◌, [], Some, length, min, IfErr, OnOk, IsOk};
ghost use Rattle.cell_heap.specs.Contents.{entry_count};
ghost use Rattle.cell_heap.specs.Follows.{Follows};
ghost use Rattle.cell_heap.specs.Soundness.{CellBelow};
ghost use Rattle.model_values.specs.Cells.{Gives, cell_bytes, heap_bytes, no_room, with_new};
ghost use Rattle.model_values.specs.Limits.{product_limits};
ghost use Rattle.model_values.specs.TextMethods.{text_cells};
ghost use Rattle.model_values.specs.declared.cell.Cell.{Cell as HeldCell};
ghost use Rattle.model_values.specs.declared.value.Value.TheVariants.{Cell as InCell};
ghost use Rattle.value_view.specs.Answers.{Answers, Leaves};

use cell_heap::{CellRefusal, Heap};
use model_text::{Text, Texts};
use model_values::{Cell, LimitKind, Value};
use value_view::OpRefusal;

/// The most cells of a build.
pub const MAX_CELLS: usize = 1048576;

/// The most heap bytes of a build.
pub const MAX_BYTES: u64 = 268435456;

/// The heap bytes of a cell with nothing in it.
const CELL: u64 = 16;

/// New texts, and behind them another cell, which has so many heap bytes; its number is the value. All of them are
/// made or none.
///
/// The limits on cells and on heap bytes come as the table says; after any refusal every cell is as it was.
pub fn new_cells(heap: &mut Heap, texts: Texts, last: Cell, bytes: u64) -> Result<Value, OpRefusal>
    requires below { CellBelow (length heap.old.cells + length texts) last }
    requires few { entry_count last ≤ 65536 }
    requires bytes { bytes ≡ cell_bytes last }
    ensures answer { Answers (with_new product_limits heap.old.cells (text_cells texts ++ last ∷ []) (λ g. Gives g (InCell (length heap.old.cells + length texts)))) heap.old heap.new result }
    ensures leaves { Leaves heap.old heap.new result }
{
    check_room(heap, &texts, bytes)?;
    heap.reserve(texts.len() as u32 + 1)?;
    push_texts(heap, texts)?;
    Ok(Value::Cell(heap.new_cell(last)?))
}

/// Whether these texts, and one cell more with so many heap bytes, pass a limit.
fn check_room(heap: &Heap, texts: &Texts, bytes: u64) -> Result<(), LimitKind>
    ensures few { OnOk result (length heap.now.cells + length texts.now + 1 ≤ 1048576) }
    ensures small { OnOk result (heap_bytes heap.now.cells + heap_bytes (text_cells texts.now) + bytes ≤ 268435456) }
    ensures limit { IfErr result (λ limit. (last : HeldCell) → cell_bytes last ≡ bytes → no_room product_limits heap.now.cells (text_cells texts.now ++ last ∷ []) ≡ Some limit) }
{
    if (heap.len() as usize).saturating_add(texts.len()) >= MAX_CELLS {
        return Err(LimitKind::Cells);
    }
    let bytes = text_bytes(texts.as_slice()).saturating_add(bytes);
    if heap.bytes().saturating_add(bytes) > MAX_BYTES {
        return Err(LimitKind::HeapBytes);
    }
    Ok(())
}

/// The heap bytes of texts in cells, or 18,446,744,073,709,551,615 where they have more.
fn text_bytes(texts: &[Text]) -> u64
    ensures { result ≡ min (heap_bytes (text_cells texts.now)) (2 ^ 64 - 1) }
{
    let mut bytes = 0u64;
    for text in texts {
        bytes = bytes.saturating_add(CELL.saturating_add(text.len() as u64));
    }
    bytes
}

/// Makes these texts, for which there is room.
fn push_texts(heap: &mut Heap, texts: Texts) -> Result<(), CellRefusal>
    requires few { length heap.old.cells + length texts ≤ 1048576 }
    requires small { heap_bytes heap.old.cells + heap_bytes (text_cells texts) ≤ 268435456 }
    requires room { length texts ≤ heap.old.spare }
    ensures made { IsOk result }
    ensures cells { heap.new.cells ≡ heap.old.cells ++ text_cells texts }
    ensures spare { heap.new.spare + length texts ≡ heap.old.spare }
    ensures follows { Follows heap.old heap.new }
{
    for text in texts.into_vec() {
        heap.new_cell(Cell::Text(text))?;
    }
    Ok(())
}
