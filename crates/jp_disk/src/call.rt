// The calls that a disk in memory keeps.
use crate::Bytes;

/// A call of a disk in memory, and whether it was done: a call that was not done answered `Failed`.
#[derive(Debug, Drop)]
pub enum Call {
    Len { done: bool },
    /// The place, and the length of the buffer.
    Read { at: u64, len: u64, done: bool },
    /// A write that was not done is in the file all the same, and pending.
    Write { at: u64, bytes: Bytes, done: bool },
    Sync { done: bool },
}
