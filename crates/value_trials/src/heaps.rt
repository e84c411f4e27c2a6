ghost use Rattle.std.specs.Prelude.{All, IfOk};
ghost use Rattle.cell_heap.specs.Soundness.{ValueBelow};

use cell_heap::{CellRefusal, Heap};
use model_text::Text;
use model_values::{Cell, Entries, Key, Value, Values};
use std::alloc::{AllocError, Global};
use std::test::Fail;

fn nulls(alloc: Global, count: usize) -> Result<Values, AllocError>
    ensures { IfOk result (All (ValueBelow 0)) }
{
    let mut values = Values::new(alloc);
    for _ in 0..count {
        values.push(Value::Null)?;
    }
    Ok(values)
}

#[test]
fn new_and_written_cells_are_changed_since_the_mark(rt: HostRuntime) -> Result<(), Fail> {
    let mut heap = Heap::new(rt.alloc());
    heap.new_cell(Cell::List(Values::new(rt.alloc())))?;
    heap.mark();
    heap.new_cell(Cell::Variable(Value::Int(5)))?;
    heap.list_push(0, Value::Cell(1))?;
    assert_eq!(rt; heap.changed_since()?.as_slice(), [0, 1].as_slice());
    assert_eq!(rt; heap.len(), 2);
    assert_eq!(rt; heap.bytes(), 48);
    Ok(())
}

#[test]
fn reserved_cells_are_made(rt: HostRuntime) -> Result<(), Fail> {
    let mut heap = Heap::new(rt.alloc());
    assert!(rt; heap.is_empty());
    heap.reserve(2)?;
    assert_eq!(rt; heap.new_cell(Cell::Variable(Value::Null)), Ok(0));
    assert_eq!(rt; heap.new_cell(Cell::Variable(Value::Bool(true))), Ok(1));
    heap.set(0, Value::Int(7));
    match heap.get(0) {
        Cell::Variable(value) => assert_eq!(rt; *value, Value::Int(7)),
        _ => assert!(rt; false),
    }
    Ok(())
}

#[test]
fn a_list_of_65536_entries_takes_no_more(rt: HostRuntime) -> Result<(), Fail> {
    let mut heap = Heap::new(rt.alloc());
    heap.new_cell(Cell::List(nulls(rt.alloc(), 65536)?))?;
    assert_eq!(rt; heap.list_push(0, Value::Null), Err(CellRefusal::Entries));
    Ok(())
}

#[test]
fn maps_take_and_give_back_entries(rt: HostRuntime) -> Result<(), Fail> {
    let mut heap = Heap::new(rt.alloc());
    heap.new_cell(Cell::Map(Entries::new(rt.alloc())))?;
    let put = [
        heap.map_put(0, Key::Int(3), Value::Null),
        heap.map_put(0, Key::Int(3), Value::Int(1)),
    ];
    assert!(rt; put == [Ok(None), Ok(Some(Value::Null))]);
    assert_eq!(rt; heap.bytes(), 48);
    let removed = [
        heap.map_remove(0, &Key::Int(3)),
        heap.map_remove(0, &Key::Int(3)),
    ];
    assert!(rt; removed == [Some(Value::Int(1)), None]);
    Ok(())
}

#[test]
fn a_restored_heap_has_its_cells_unchanged(rt: HostRuntime) -> Result<(), Fail> {
    let mut cells = Vec::new(rt.alloc());
    cells.push(Cell::Variable(Value::Int(4)))?;
    let heap = Heap::restore(rt.alloc(), cells)?;
    assert_eq!(rt; heap.len(), 1);
    assert_eq!(rt; heap.changed_since()?.len(), 0);
    Ok(())
}

/// A text of so many times the same piece.
fn repeated(alloc: Global, piece: &str, times: usize) -> Result<Text, AllocError> {
    let mut text = Text::new(alloc);
    for _ in 0..times {
        text.append(piece.as_bytes())?;
    }
    Ok(text)
}

/// The byte at which a character of the text in a cell begins.
fn byte_in(heap: &mut Heap, id: u32, at: usize) -> Result<usize, Fail> {
    if id >= heap.len() {
        return Err(Fail::new("no such cell"));
    }
    match heap.get(id) {
        Cell::Text(_) => Ok(heap.character_at(id, at)),
        _ => Err(Fail::new("no text")),
    }
}

#[test]
fn characters_begin_where_they_do_in_whatever_order_they_are_asked_for(
    rt: HostRuntime,
) -> Result<(), Fail> {
    let mut heap = Heap::new(rt.alloc());
    for id in 0..12 {
        let (piece, times) = match id {
            0 => ("aé€😀b", 8),
            3 => ("aé€😀b", 60),
            8 => ("€", 30),
            11 => ("€", 300),
            _ => ("", 0),
        };
        heap.new_cell(Cell::Text(repeated(rt.alloc(), piece, times)?))?;
    }
    for (id, at, byte) in [
        (0, 0, 0),
        (0, 3, 6),
        (0, 30, 66),
        (0, 31, 67),
        (0, 32, 69),
        (0, 34, 76),
        (8, 25, 75),
        (0, 35, 77),
        (8, 26, 78),
        (8, 24, 72),
        (0, 40, 88),
        (0, 99, 88),
        (0, 39, 87),
        (8, 30, 90),
        (0, 4, 10),
        (1, 1, 0),
        (3, 250, 550),
        (11, 199, 597),
        (3, 251, 551),
        (11, 200, 600),
        (3, 129, 285),
        (3, 128, 281),
        (11, 128, 384),
        (3, 127, 278),
        (11, 127, 381),
        (3, 65, 143),
        (3, 64, 142),
        (3, 63, 138),
        (11, 64, 192),
        (3, 1, 1),
        (3, 299, 659),
        (3, 300, 660),
        (3, 301, 660),
        (11, 400, 900),
    ] {
        assert_eq!(rt; byte_in(&mut heap, id, at)?, byte);
    }
    Ok(())
}
