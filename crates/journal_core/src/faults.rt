// What the calls of a journal answer where they fail.
use thiserror::Error;

#[derive(Clone, Copy, Debug, PartialEq, Eq, Error)]
pub enum CreateFault {
    /// A call of the disk failed.
    #[error("the disk failed")]
    Disk,
    /// Byte 0 of the file is 1, and the file has six bytes or more.
    #[error("the file has a record")]
    HasRecord,
}

#[derive(Clone, Copy, Debug, PartialEq, Eq, Error)]
pub enum OpenFault {
    #[error("out of memory")]
    Memory,
    /// A call of the disk failed.
    #[error("the disk failed")]
    Disk,
    /// The file has no record.
    #[error("the file has no record")]
    Empty,
    /// The record whose gate stands at this place does not end in the file.
    #[error("the record at byte {at} is damaged")]
    Damaged { at: u64 },
}

#[derive(Clone, Copy, Debug, PartialEq, Eq, Error)]
pub enum ReadFault {
    #[error("out of memory")]
    Memory,
    /// A call of the disk failed.
    #[error("the disk failed")]
    Disk,
}

#[derive(Clone, Copy, Debug, PartialEq, Eq, Error)]
pub enum AppendFault {
    #[error("out of memory")]
    Memory,
    /// A call of the disk failed. A crash may leave the record or not, and the journal is stopped.
    #[error("the disk failed")]
    Disk,
    /// The journal's length and what the record adds are more than 1,073,741,824 bytes together.
    #[error("the journal is full: {len} bytes and {add} more")]
    Full { len: u64, add: u64 },
    /// An earlier append on this journal answered `Disk`.
    #[error("the journal is stopped")]
    Stopped,
}

/// Why an event was not taken, though the build might have taken it.
#[derive(Clone, Copy, Debug, PartialEq, Eq, Error)]
pub enum TakeFault {
    /// There was no memory. Nothing was written.
    #[error("out of memory")]
    Memory,
    /// The disk failed. A crash may leave the record of the event or not, and the build is stopped.
    #[error("the disk failed")]
    Disk,
    /// The record of the event, which would add `add` bytes, does not fit behind the `len` bytes of the journal. The
    /// build is stopped.
    #[error("the journal is full: {len} bytes and {add} more")]
    Full { len: u64, add: u64 },
    /// An earlier fault stopped the build.
    #[error("the build is stopped")]
    Stopped,
}
