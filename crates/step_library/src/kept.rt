//! Lines of throwables, and texts that steps keep.

ghost use Rattle.std.specs.Prelude.{◌≡◌, ◌++◌, IfOk, OnOk, slice_get};
ghost use Rattle.model_values.specs.Fitting.{HasThrowable};
ghost use Rattle.model_values.specs.Throwables.{thrown_text};
ghost use Rattle.model_run.specs.Results.{failure_line};
ghost use Rattle.model_run.specs.Steps.{caught_lines, is_interruption};

use cell_heap::Heap;
use model_text::{Text, Texts};
use model_values::{Cell, Class};
use std::alloc::{AllocError, Global};

/// The lines of a failure that the build goes on behind. `AllocError` where the memory was refused.
pub(crate) fn caught_lines(alloc: Global, heap: &Heap, cell: u32) -> Result<Texts, AllocError>
    requires { HasThrowable (slice_get heap.now.cells cell) }
    ensures { IfOk result (λ lines. lines ≡ caught_lines (slice_get heap.now.cells cell)) }
{
    let mut lines = Texts::new(alloc);
    add_caught_lines(alloc, heap, cell, &mut lines)?;
    Ok(lines)
}

/// Puts them behind other lines. `AllocError` where the memory was refused.
pub(crate) fn add_caught_lines(
    alloc: Global,
    heap: &Heap,
    cell: u32,
    lines: &mut Texts,
) -> Result<(), AllocError>
    requires { HasThrowable (slice_get heap.now.cells cell) }
    ensures { OnOk result (lines.new ≡ lines.old ++ caught_lines (slice_get heap.now.cells cell)) }
{
    match heap.get(cell) {
        Cell::Thrown {
            class: Class::FlowInterrupted,
            message: Some(message),
        } => lines.push(message.clone()?),
        Cell::Thrown {
            class: Class::FlowInterrupted,
            message: None,
        } => Ok(()),
        Cell::Thrown { class, message } => lines.push(failure_line(alloc, *class, message)?),
        _ => unreachable!(),
    }
}

/// The line of a failure: with the message of an abort, and the text of any other throwable.
fn failure_line(alloc: Global, class: Class, message: &Option<Text>) -> Result<Text, AllocError>
    ensures { IfOk result (λ line. line ≡ failure_line class message.now) }
{
    let mut line = Text::from_str(alloc, "ERROR: ")?;
    match class {
        Class::Abort => {
            if let Some(message) = message {
                line.append(message.as_slice())?;
            }
        }
        _ => write_thrown(class, message, &mut line)?,
    }
    Ok(line)
}

/// Writes the text of a throwable behind another: its class, and its message behind it where it has one.
fn write_thrown(class: Class, message: &Option<Text>, text: &mut Text) -> Result<(), AllocError>
    ensures { OnOk result (text.new ≡ text.old ++ thrown_text class message.now) }
{
    text.append(class.name().as_bytes())?;
    if let Some(message) = message {
        text.append(b": ")?;
        text.append(message.as_slice())?;
    }
    Ok(())
}

/// Whether a throwable is an interruption.
pub(crate) fn is_interruption(heap: &Heap, cell: u32) -> bool
    requires { HasThrowable (slice_get heap.now.cells cell) }
    ensures { result ≡ is_interruption (slice_get heap.now.cells cell) }
{
    match heap.get(cell) {
        Cell::Thrown {
            class: Class::FlowInterrupted,
            ..
        } => true,
        Cell::Thrown { .. } => false,
        _ => unreachable!(),
    }
}
