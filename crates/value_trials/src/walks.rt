ghost use Rattle.std.specs.Prelude.{IfOk, length};
ghost use Rattle.cell_heap.specs.Soundness.{ValueBelow};

use cell_heap::Heap;
use model_text::Text;
use model_values::{Cell, Entries, Key, Value};
use std::test::Fail;
use value_walks::{LoopPlace, Parts, Turn, has_loop_turn, loop_turn, walk_turn};

/// The value, where its cell is there.
fn there(heap: &Heap, value: Value) -> Result<Value, Fail>
    ensures { IfOk result (ValueBelow (length heap.now.cells)) }
{
    match value {
        Value::Cell(cell) if cell >= heap.len() => Err(Fail::new("no such cell")),
        _ => Ok(value),
    }
}

#[test]
fn a_closure_of_two_parameters_gets_key_and_value(rt: HostRuntime) -> Result<(), Fail> {
    let alloc = rt.alloc();
    for (takes_two, arguments) in [
        (true, Parts::Two(Value::Cell(1), Value::Int(5))),
        (false, Parts::One(Value::Cell(2))),
    ] {
        let mut heap = Heap::new(alloc);
        let mut entries = Entries::new(alloc);
        entries.put(Key::Text(Text::from_str(alloc, "k")?), Value::Int(5))?;
        heap.new_cell(Cell::Map(entries))?;
        let map = there(&heap, Value::Cell(0))?;
        let element = Parts::Two(Value::Cell(1), Value::Int(5));
        let turn = walk_turn(alloc, &mut heap, &map, takes_two, 0)?;
        assert_eq!(rt; turn, Some(Turn { arguments, element }));
        let past = walk_turn(alloc, &mut heap, &map, takes_two, 1)?;
        assert_eq!(rt; past, None);
    }
    Ok(())
}

#[test]
fn a_loop_over_a_text_has_a_turn_a_character(rt: HostRuntime) -> Result<(), Fail> {
    let alloc = rt.alloc();
    let mut heap = Heap::new(alloc);
    heap.new_cell(Cell::Text(Text::from_str(alloc, "é1")?))?;
    let text = there(&heap, Value::Cell(0))?;
    let second = LoopPlace::of(&mut heap, &text, 1);
    assert_eq!(rt; second, LoopPlace { at: 1, byte: 2 });
    assert!(rt; !has_loop_turn(&heap, &text, second.next(&heap, &text)));
    let turn = loop_turn(alloc, &mut heap, &text, second)?;
    let character = Parts::One(Value::Cell(1));
    assert_eq!(rt;
        turn,
        Some(Turn {
            arguments: character,
            element: character
        })
    );
    Ok(())
}
