//! Hosts for tests of members in threads: the task of one runs until the task of another has started.
//!
//! ```text
//! let (first, second) = (AtomicBool::new(false), AtomicBool::new(false));
//! let one = MeetingHost::new(&rt, MemoryHost::echoing(alloc), &first, &second);
//! let two = MeetingHost::new(&rt, MemoryHost::echoing(alloc), &second, &first);
//! ```
#![tactic(auto)]

mod meeting;

pub use meeting::MeetingHost;
