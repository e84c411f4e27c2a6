//! The log of a build: one row of bytes to which lines and raw pieces of a task's output are put.
//!
//! A contract sees a [`Log`] as its bytes, and each call gives those that the definition of `model_run`
//! (`specs/LogText`) gives: a line begins on a line of its own, and a raw piece is put behind as it is. A log takes at
//! most 16,777,216 bytes; a line or a piece that would pass this is refused whole. The last lines of a build are under
//! no limit.
//!
//! ```
//! let mut log = Log::new(alloc);
//! log.raw(b"+ make")?;
//! log.line(b"[Pipeline] }")?;
//! assert!(log.bytes() == b"+ make\n[Pipeline] }\n");
//! ```
#![tactic(auto)]

mod log;
mod refusal;

pub use log::Log;
pub use refusal::LogRefusal;
