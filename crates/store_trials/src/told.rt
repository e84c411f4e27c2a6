//! What a call of the controller came to, as text.

use crate::call::Called;
use crate::hosts::launched;
use jp_io::{MemorySource, Source};
use std::alloc::{AllocError, Global};

/// Writes an order. `AllocError` where the memory was refused.
pub fn write_order(alloc: Global, line: &str, out: &mut Vec<u8>) -> Result<(), AllocError> {
    write_line(out, &format!(in alloc; "$ {line}")?)
}

/// Writes what the controller wrote, its status, how many bytes of the answers were not read, where there are some,
/// and which tasks were launched. `AllocError` where the memory was refused.
pub fn write_called<D>(
    alloc: Global,
    called: &mut Called<D>,
    out: &mut Vec<u8>,
) -> Result<(), AllocError> {
    write_text(alloc, called.out.bytes(), out)?;
    let unread = unread(&mut called.answers);
    write_line(out, &ending(alloc, called.status, unread)?)?;
    write_launched(alloc, &launched(alloc, &called.hosts)?, out)
}

/// Writes which tasks were launched, where there are some. `AllocError` where the memory was refused.
fn write_launched(alloc: Global, tasks: &[u32], out: &mut Vec<u8>) -> Result<(), AllocError> {
    if tasks.is_empty() {
        return Ok(());
    }
    write_line(out, &format!(in alloc; "launched {tasks:?}")?)
}

/// Writes the bytes of a store, as the order `store` has them. `AllocError` where the memory was refused.
pub fn write_bytes(alloc: Global, store: &[u8], out: &mut Vec<u8>) -> Result<(), AllocError> {
    out.extend_from_slice(b"store")?;
    for byte in store {
        out.extend_from_slice(format!(in alloc; " {byte:02x}")?.as_bytes())?;
    }
    out.push(b'\n')?;
    Ok(())
}

/// Writes a line. `AllocError` where the memory was refused.
pub fn write_line(out: &mut Vec<u8>, line: &str) -> Result<(), AllocError> {
    out.extend_from_slice(line.as_bytes())?;
    out.push(b'\n')?;
    Ok(())
}

/// The line of a status and of answers that were not read.
fn ending(alloc: Global, status: u8, unread: usize) -> Result<String, AllocError> {
    if unread == 0 {
        return format!(in alloc; "status {status}");
    }
    format!(in alloc; "status {status}, {unread} bytes of the answers were not read")
}

/// How many bytes of the answers were not read; of more than 1,000 these.
fn unread(answers: &mut MemorySource) -> usize {
    let mut bytes = [0; 1000];
    match answers.read(&mut bytes) {
        Ok(count) => count,
        // The call that was to fail: the next one does not.
        Err(_) => answers.read(&mut bytes).unwrap_or(0),
    }
}

/// The longest text that is written whole.
const LONGEST: usize = 10_000;

/// Writes a text; of a long one its length and its last 200 bytes. `AllocError` where the memory was refused.
fn write_text(alloc: Global, text: &[u8], out: &mut Vec<u8>) -> Result<(), AllocError> {
    if text.len() <= LONGEST {
        return out.extend_from_slice(text);
    }
    write_line(
        out,
        &format!(in alloc; "{} bytes, the last of them:", text.len())?,
    )?;
    out.extend_from_slice(&text[text.len() - 200..])
}
