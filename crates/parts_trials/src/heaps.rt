ghost use Rattle.std.specs.Prelude.{◌<◌, ℕ, length, slice_get, IfOk};
ghost use Rattle.cell_heap.specs.Soundness.{CellBelow};
ghost use Rattle.model_values.specs.Fitting.{HasMap};

use cell_heap::{CellRefusal, Heap};
use model_text::Text;
use model_values::{Cell, Entries, Key, Value};
use std::alloc::{AllocError, Global};
use std::test::Fail;

/// A text of so many bytes `x`.
fn text(alloc: Global, count: usize) -> Result<Cell, AllocError>
    ensures { IfOk result (λ cell. (n : ℕ) → CellBelow n cell) }
{
    Ok(Cell::Text(Text::from_vec(Vec::from_elem(alloc, b'x', count)?)))
}

/// A heap whose first cell is a map with so many entries.
fn map(alloc: Global, count: i32) -> Result<Heap, CellRefusal>
    ensures { IfOk result (λ heap. (0 < length heap.cells) × HasMap (slice_get heap.cells 0)) }
{
    let mut heap = Heap::new(alloc);
    heap.new_cell(Cell::Map(Entries::new(alloc)))?;
    for number in 0..count {
        heap.map_put(0, Key::Int(number), Value::Null)?;
    }
    Ok(heap)
}

#[test]
fn a_heap_of_1048576_cells_takes_no_more(rt: HostRuntime) -> Result<(), Fail> {
    let mut heap = Heap::new(rt.alloc());
    for _ in 0..1048576 {
        heap.new_cell(Cell::Variable(Value::Null))?;
    }
    assert_eq!(rt;
        heap.new_cell(Cell::Variable(Value::Null)),
        Err(CellRefusal::Cells)
    );
    assert_eq!(rt; heap.len(), 1048576);
    Ok(())
}

#[test]
fn a_heap_of_268435456_bytes_takes_no_more(rt: HostRuntime) -> Result<(), Fail> {
    let mut heap = Heap::new(rt.alloc());
    for _ in 0..255 {
        heap.new_cell(text(rt.alloc(), 1048576)?)?;
    }
    assert_eq!(rt;
        heap.new_cell(text(rt.alloc(), 1044481)?),
        Err(CellRefusal::Bytes)
    );
    heap.new_cell(text(rt.alloc(), 1044480)?)?;
    assert_eq!(rt; heap.bytes(), 268435456);
    assert_eq!(rt;
        heap.new_cell(Cell::Variable(Value::Null)),
        Err(CellRefusal::Bytes)
    );
    Ok(())
}

#[test]
fn a_map_of_65536_entries_takes_no_more_keys(rt: HostRuntime) -> Result<(), Fail> {
    let mut heap = map(rt.alloc(), 65536)?;
    assert_eq!(rt;
        heap.map_put(0, Key::Int(65536), Value::Null),
        Err(CellRefusal::Entries)
    );
    Ok(())
}

#[test]
fn a_map_of_65536_entries_takes_a_key_that_it_has(rt: HostRuntime) -> Result<(), Fail> {
    let mut heap = map(rt.alloc(), 65536)?;
    assert_eq!(rt;
        heap.map_put(0, Key::Int(65535), Value::Int(1)),
        Ok(Some(Value::Null))
    );
    Ok(())
}
