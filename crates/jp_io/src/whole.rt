//! Reading a whole input that has a limit, and writing a whole text.
ghost use Rattle.std.specs.Prelude.{◌≡◌, ◌≤◌, ◌<◌, ◌++◌, ℕ, List, length, IfOk, OnOk, OnErr, vec_len};
ghost use Rattle.std.specs.Io.KnownBytes.{Appends, Consumes, IsAtEnd};
ghost use Rattle.device_faults.specs.Faults.{Rose, HasCause};
ghost use Rattle.jp_io.specs.Whole.{ReadCause, AppendsPart, TakesAtMost};

use crate::{Sink, Source};
use device_faults::Failed;
use std::alloc::{AllocError, Global};

/// Why an input could not be read.
#[derive(Clone, Copy, Debug, PartialEq, Eq)]
pub enum ReadFault {
    /// There was no memory for the bytes.
    Memory,
    /// The source failed.
    Failed,
}

/// How many bytes are read at once.
const PIECE: usize = 4096;

/// Reads a source to its end, but at most `limit` bytes, and asks it for no more than these, also where it fails.
///
/// Where fewer than `limit` bytes come back, the source is at its end.
///
/// # Errors
///
/// `Failed` where a read failed, and `Memory` where there was no memory for the bytes. What was read
/// until then is lost.
pub fn read_up_to<S: Source>(
    alloc: Global,
    source: &mut S,
    limit: usize,
) -> Result<Vec<u8>, ReadFault>
    ensures bytes { IfOk result (λ v. Consumes (S.left source.old) (S.left source.new) v.items) }
    ensures within { IfOk result (λ v. vec_len v ≤ limit) }
    ensures whole { IfOk result (λ v. vec_len v < limit → IsAtEnd (S.left source.new)) }
    ensures most { TakesAtMost limit (S.left source.old) (S.left source.new) }
    ensures cause { ReadCause (S.faults source.old) (S.faults source.new) result }
{
    let mut bytes = Vec::new(alloc);
    while bytes.len() < limit {
        let room = limit - bytes.len();
        if read_piece(source, &mut bytes, room)? == 0 {
            return Ok(bytes);
        }
    }
    Ok(bytes)
}

/// Reads at most `room` bytes behind those that are there, and answers how many.
fn read_piece<S: Source>(
    source: &mut S,
    bytes: &mut Vec<u8>,
    room: usize,
) -> Result<usize, ReadFault>
    requires { 0 < room }
    ensures count { IfOk result (λ n. n ≤ room) }
    ensures bytes { IfOk result (λ n. (piece : List ℕ) × (length piece ≡ n)
        × (bytes.new.items ≡ bytes.old.items ++ piece)
        × Consumes (S.left source.old) (S.left source.new) piece) }
    ensures end { IfOk result (λ n. n ≡ 0 → IsAtEnd (S.left source.new)) }
    ensures most { TakesAtMost room (S.left source.old) (S.left source.new) }
    ensures cause { ReadCause (S.faults source.old) (S.faults source.new) result }
{
    let mut piece = [0; PIECE];
    let size = room.min(PIECE);
    let Ok(count) = source.read(&mut piece[..size]) else {
        return Err(ReadFault::Failed);
    };
    match bytes.extend_from_slice(&piece[..count]) {
        Ok(()) => Ok(count),
        Err(_) => Err(ReadFault::Memory),
    }
}

/// Writes all of these bytes.
///
/// # Errors
///
/// `Failed` where a write failed. The sink has then taken a part of the bytes, from their beginning.
pub fn write_all<K: Sink>(sink: &mut K, bytes: &[u8]) -> Result<(), Failed>
    ensures all { OnOk result (Appends (K.written sink.old) (K.written sink.new) bytes.now) }
    ensures part { OnErr result (AppendsPart (K.written sink.old) (K.written sink.new) bytes.now) }
    ensures cause { HasCause (K.faults sink.old) (K.faults sink.new) result }
{
    let mut done = 0;
    while done < bytes.len() {
        done += sink.write(&bytes[done..])?;
    }
    Ok(())
}
