//! Why a store was not opened.

use thiserror::Error;

/// Why a store was not opened.
#[derive(Clone, Copy, Debug, PartialEq, Eq, Error)]
pub enum StoreFault {
    /// The memory was refused.
    #[error("out of memory")]
    Memory,
    /// The disk failed.
    #[error("the disk failed")]
    Disk,
    /// It has no record.
    #[error("the store has no record")]
    Empty,
    /// The record whose gate stands at this place is cut short; or it is not in its form, or not that of a `Start` as the first
    /// one; or its changes do not fit the image before; or its image, as the last one, does not pass the check, or has
    /// something left of a build that has ended.
    #[error("the record at byte {at} is damaged")]
    Damaged { at: u64 },
}
