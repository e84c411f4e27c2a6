//! A disk with one file, as a journal sees it: the trait `Disk`, whose contract says what a read gives and what a
//! crash at any moment may leave, and `MemoryDisk`, which keeps its bytes in memory and can fail, stop and crash.
//!
//! Code that is proved over `Disk` holds its promises through each crash that the trait allows; run over a
//! `MemoryDisk` it meets them:
//!
//! ```text
//! let mut disk = MemoryDisk::new(bytes, Numbers::new(alloc), Some(4));
//! disk.write_at(0, b"abc")?;      // call 1, pending
//! disk.sync()?;                   // call 2: a crash now leaves what a read gives
//! disk.write_at(1, b"xyz")?;      // call 3, pending: call 4 and each later one fails
//! let disk = disk.crash(7);       // one of the files that a crash may leave
//! ```
//!
//! What is promised: a crash leaves only what the trait's clauses allow (`image` of `MemoryDisk::crash`); the calls
//! that are listed fail, and no others but for want of memory (`one_call` of each call); a call fails exactly where the
//! count of faults rises (`cause`).
#![tactic(auto)]

mod call;
mod disk;
mod memory;
mod tear;

pub use call::Call;
pub use disk::Disk;
pub use memory::MemoryDisk;
pub use model_text::Bytes;

/// Numbers of calls.
pub type Numbers = model_text::Sequence<u64>;
