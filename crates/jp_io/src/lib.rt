//! Byte streams with a meaning: what a source has left, what a sink was given, and who failed.
//!
//! A [`Source`] gives bytes and a [`Sink`] takes them. Each may tell contracts its bytes, and each counts
//! its faults, so a caller's contract can say "the sink was given exactly this text, or a part from its
//! beginning where the sink failed". The forms in memory tell their bytes; the adapters of the system's streams tell
//! what the reader or writer below them tells: of a real file or terminal nothing, since no contract can say what it
//! does, and yet they drop, repeat and make up no byte.
//!
//! For example, `read_up_to(alloc, &mut source, 65_537)` reads a file of at most 65,536 bytes, or finds
//! that it is longer.
#![tactic(auto)]

mod clean;
mod lazy_file;
mod memory;
mod sink;
mod source;
mod standard;
mod unread;
mod whole;

pub use clean::{CleanSink, CleanSource};
pub use lazy_file::LazyFile;
pub use memory::{MemorySink, MemorySource};
pub use sink::Sink;
pub use source::Source;
pub use standard::{StdSink, StdSource};
pub use whole::{ReadFault, read_up_to, write_all};
