//! The values of a row, and the cells that they name.
ghost use Rattle.std.specs.Prelude.{length};
ghost use Rattle.cell_heap.specs.Soundness.{ValueBelow};

use cell_heap::Heap;
use model_text::Text;
use model_values::{Cell, Value, Values};
use std::alloc::{AllocError, Global};
use value_view::OpRefusal;

/// The value, or null where its cell is not there.
pub fn there(heap: &Heap, value: Value) -> Value
    ensures { ValueBelow (length heap.now.cells) result }
{
    match value {
        Value::Cell(cell) if cell >= heap.len() => Value::Null,
        _ => value,
    }
}

/// The value at this place, or null where there is none, or its cell is not there.
pub fn nth(heap: &Heap, values: &[Value], at: usize) -> Value
    ensures { ValueBelow (length heap.now.cells) result }
{
    match values.get(at) {
        Some(value) => there(heap, *value),
        None => Value::Null,
    }
}

/// Reads values with a blank between them. Each text gets a new cell.
pub fn read_values(alloc: Global, heap: &mut Heap, words: &str) -> Result<Vec<Value>, OpRefusal> {
    let mut values = Vec::new(alloc);
    for word in words.split(" ") {
        if !word.is_empty() {
            let value = read_value(alloc, heap, word)?;
            values.push(value).map_err(AllocError::from)?;
        }
    }
    Ok(values)
}

/// Reads a value.
fn read_value(alloc: Global, heap: &mut Heap, word: &str) -> Result<Value, OpRefusal> {
    if let Some(text) = word.strip_prefix("'") {
        let text = read_text(alloc, text)?;
        return Ok(Value::Cell(heap.new_cell(Cell::Text(text))?));
    }
    if let Some(digits) = word.strip_prefix("#") {
        return Ok(Value::Cell(digits.parse::<u32>().unwrap_or(0)));
    }
    Ok(match word {
        "null" => Value::Null,
        "true" => Value::Bool(true),
        "false" => Value::Bool(false),
        _ => Value::Int(word.parse::<i32>().unwrap_or(0)),
    })
}

/// So many lists inside each other, the innermost of which has one number.
pub fn nested(alloc: Global, heap: &mut Heap, depth: &str) -> Result<Value, OpRefusal> {
    let mut value = Value::Int(7);
    for _ in 0..depth.parse::<u32>().unwrap_or(0) {
        let mut values = Values::new(alloc);
        values.push(there(heap, value))?;
        value = Value::Cell(heap.new_cell(Cell::List(values))?);
    }
    Ok(value)
}

/// Reads a text in which `\s`, `\t`, `\n` and `\r` stand for blanks.
pub fn read_text(alloc: Global, word: &str) -> Result<Text, AllocError> {
    let mut text = Text::new(alloc);
    let mut is_escaped = false;
    for byte in word.bytes() {
        if is_escaped {
            text.push(blank(byte))?;
            is_escaped = false;
        } else if byte == b'\\' {
            is_escaped = true;
        } else {
            text.push(byte)?;
        }
    }
    Ok(text)
}

/// The blank that a letter behind `\` stands for.
fn blank(letter: u8) -> u8 {
    match letter {
        b't' => b'\t',
        b'n' => b'\n',
        b'r' => b'\r',
        _ => b' ',
    }
}
