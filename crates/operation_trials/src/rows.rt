//! The rows of a trial, from their text to what they write.

use crate::answers::answer;
use crate::cells::{read_values, there};
use cell_heap::Heap;
use model_text::Text;
use model_values::{Cell, Value};
use std::alloc::{AllocError, Global};
use value_view::{OpRefusal, text_of};

/// What the rows of a trial write behind its name. `AllocError` where the memory was refused.
pub fn run_trial(alloc: Global, text: &str) -> Result<Vec<u8>, AllocError> {
    let mut heap = Heap::new(alloc);
    let mut out = Vec::new(alloc);
    for row in text.lines().skip(1) {
        let given = run_row(alloc, &mut heap, row);
        show(alloc, &heap, given, &mut out)?;
        out.push(b'\n')?;
    }
    Ok(out)
}

/// What a row gives: the word of what is done, its name, and values.
fn run_row(alloc: Global, heap: &mut Heap, row: &str) -> Result<Option<Value>, OpRefusal> {
    let (order, rest) = row.split_once(" ").unwrap_or((row, ""));
    let (name, words) = rest.split_once(" ").unwrap_or((rest, ""));
    let values = read_values(alloc, heap, words)?;
    answer(alloc, heap, order, name, &values)
}

/// Writes what was given or thrown, or the limit that was met. `AllocError` where the memory was refused.
fn show(
    alloc: Global,
    heap: &Heap,
    given: Result<Option<Value>, OpRefusal>,
    out: &mut Vec<u8>,
) -> Result<(), AllocError> {
    match worded(alloc, heap, given) {
        Ok((mark, text)) => {
            out.extend_from_slice(mark.as_bytes())?;
            out.extend_from_slice(text.as_slice())
        }
        Err(OpRefusal::Limit(kind)) => {
            let line = format!(in alloc; "limit {kind:?}")?;
            out.extend_from_slice(line.as_bytes())
        }
        Err(_) => Err(AllocError),
    }
}

/// The words for what was given or thrown: a mark, and a text.
fn worded(
    alloc: Global,
    heap: &Heap,
    given: Result<Option<Value>, OpRefusal>,
) -> Result<(&'static str, Text), OpRefusal> {
    match given {
        Ok(Some(value)) => Ok((mark(heap, value), text(alloc, heap, value)?)),
        Ok(None) => Ok(("no such method", Text::new(alloc))),
        Err(OpRefusal::Thrown(cell)) => Ok(("throws ", text(alloc, heap, Value::Cell(cell))?)),
        Err(refusal) => Err(refusal),
    }
}

/// What stands before a value: `'` before a text.
fn mark(heap: &Heap, value: Value) -> &'static str {
    match there(heap, value) {
        Value::Cell(cell) => match heap.get(cell) {
            Cell::Text(_) => "'",
            _ => "",
        },
        _ => "",
    }
}

/// The text of a value.
fn text(alloc: Global, heap: &Heap, value: Value) -> Result<Text, OpRefusal> {
    text_of(alloc, heap, &there(heap, value))
}
