//! A journal of records on a disk, each of them durable before it is acknowledged.
//!
//! The file is records behind gates, and only a gate of 1 is open (docs/FORMATS.md). A record is written behind a
//! closed gate, which is opened when the record is durable, so no sum over the bytes is needed to tell a whole record
//! from a torn one:
//!
//! ```text
//! let mut journal = Journal::create(disk)?;           // 00
//! journal.append(alloc, b"abc")?;                     // 01 00000003 616263 00: 9 bytes
//! let (mut journal, entries) = Journal::open(alloc, journal.close())?;
//! journal.read(alloc, entries[0])?;                   // abc
//! ```
//!
//! What is promised, over each disk that meets the trait `Disk`: a crash at any moment leaves a file with the records
//! from before a call of `append`, or with these and the new one (`any_moment`); after `Ok` each crash leaves the new
//! one (`acknowledged`); `open` finds just the records of the file and repairs nothing (`found`).
#![tactic(auto)]

mod durable;
mod faults;
mod head;
mod journal;
mod prepare;
mod record;
mod walk;

pub use faults::{AppendFault, CreateFault, OpenFault, ReadFault, TakeFault};
pub use journal::Journal;
pub use jp_disk::Bytes;
pub use record::Record;
