//! The records of a store, one after the other, with a sum for each.

ghost use Rattle.std.specs.Prelude.{◌≡◌};
ghost use Rattle.edge_files.specs.Sums.{first_sum};

use crate::file_at_path::FileAtPath;
use sha2::{Digest, Sha256};
use std::io;
use std::io::ErrorKind;
use std::rt::Files;

/// The bytes of a sum.
pub type Sum = [u8; 32];

/// How far a walk over the records of a store has come.
#[derive(Clone, Copy, Debug, PartialEq, Eq)]
pub struct Walk {
    /// The place of the gate at which the next record begins.
    pub at: u64,
    /// How many records stand in front of it.
    pub records: u64,
    /// The sum of the last of them, and 32 zeros where there is none.
    pub sum: Sum,
}

/// An open gate.
const OPEN: u8 = 1;

impl Walk {
    /// In front of the first record.
    pub fn new() -> Walk
        ensures { result ≡ record { at = 0; records = 0; sum = first_sum } }
    {
        Walk {
            at: 0,
            records: 0,
            sum: [0; 32],
        }
    }

    /// Goes on behind the next record, and says whether there is one that is whole and whose gate is open.
    ///
    /// # Errors
    ///
    /// Where the file cannot be read.
    pub fn step<R: Files>(&mut self, store: &mut FileAtPath<'_, R>) -> io::Result<bool> {
        let Some(next) = next_gate(store, self.at)? else {
            return Ok(false);
        };
        self.sum = sum_behind(&self.sum, store, self.at, next)?;
        self.at = next;
        self.records = self.records.saturating_add(1);
        Ok(true)
    }

    /// Whether the next record is cut short: its gate is open, and it is not whole. Then the store is damaged there, as its
    /// form says.
    ///
    /// # Errors
    ///
    /// Where the file cannot be read.
    pub fn is_cut_short<R: Files>(&self, store: &mut FileAtPath<'_, R>) -> io::Result<bool> {
        Ok(next_gate(store, self.at)?.is_none() && is_open(store, self.at)?)
    }
}

// Whether there is an open gate at this place.
fn is_open<R: Files>(store: &mut FileAtPath<'_, R>, at: u64) -> io::Result<bool> {
    let mut gate = [0u8];
    let count = store.read_at(at, &mut gate)?;
    Ok(count == 1 && gate == [OPEN])
}

// The place of the gate behind the record at `at`. None where its own gate is closed, and where it is not whole.
fn next_gate<R: Files>(store: &mut FileAtPath<'_, R>, at: u64) -> io::Result<Option<u64>> {
    let end = store.len()?;
    let mut head = [0u8; 5];
    let count = store.read_at(at, &mut head)?;
    let [gate, a, b, c, d] = head;
    if count < 5 || gate != OPEN {
        return Ok(None);
    }
    let payload = u64::from(u32::from_be_bytes([a, b, c, d]));
    let next = at.saturating_add(5 + payload);
    Ok(if next < end { Some(next) } else { None })
}

// The sum of the record between these places, behind a record with that sum.
fn sum_behind<R: Files>(
    before: &Sum,
    store: &mut FileAtPath<'_, R>,
    from: u64,
    to: u64,
) -> io::Result<Sum> {
    let mut hasher = Sha256::new();
    hasher.update(before.as_slice());
    let mut buf = [0u8; 4096];
    let mut at = from;
    for _ in from..to {
        if at >= to {
            break;
        }
        let want = (to - at).min(4096) as usize;
        let count = store.read_at(at, &mut buf[..want])?;
        if count == 0 {
            return Err(io::Error::from(ErrorKind::UnexpectedEof));
        }
        hasher.update(&buf[..count]);
        at += count as u64;
    }
    Ok(hasher.finalize())
}
