//! Bytes in memory that are read from the front on.
ghost use Rattle.std.specs.Prelude.{◌≡◌, ◌≤◌, ◌++◌, ℕ, List, drop, take, min, length, vec_len};

use std::marker::Model;

/// Bytes that are read from the front on. Contracts see those that were not read yet.
#[derive(Debug, Drop)]
pub struct Unread {
    bytes: Vec<u8>,
    at: usize,
}

impl Model for Unread {
    ghost Value = { List ℕ };

    ghost view = { λ unread. drop unread.at unread.bytes.items };

    ghost invariant = { λ unread. unread.at ≤ vec_len unread.bytes };
}

impl Unread {
    /// None of the bytes was read.
    pub fn new(bytes: Vec<u8>) -> Self
        ensures { result ≡ bytes.items }
    {
        Unread { bytes, at: 0 }
    }

    /// Reads as many bytes as there are and the buffer has room for, and answers how many.
    pub fn read(&mut self, buf: &mut [u8]) -> usize
        ensures count { result ≡ min (length buf.old) (length self.old) }
        ensures bytes { self.old ≡ take result buf.new ++ self.new }
    {
        let count = buf.len().min(self.bytes.len() - self.at);
        let end = self.at + count;
        buf[..count].copy_from_slice(&self.bytes[self.at..end]);
        self.at = end;
        count
    }
}
