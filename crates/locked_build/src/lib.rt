//! The state of one life of a saved build: the build over its disk, and the history of what was asked of it.
//!
//! A [`SiteState`] is [`Stepped`]: workers and the operator ask it one thing at a time ([`Ask`]), and what an ask did stands
//! as entries at the end of its history ([`Entry`]). An event that is taken is on the disk before it is answered, with the
//! grants of executors that are due behind it. A task is claimed at most once in a life. The first fault is kept: from then
//! on no event is taken, and nothing is claimed or heard.
//!
//! ```text
//! let mut site: SiteState<FileDisk, Thread> = SiteState::open(alloc, durable)?;
//! match site.step(Ask::Claim(0)) {
//!     Reply::Claimed(Claim::Order(order)) => {} // the task is the caller's
//!     ..
//! }
//! site.step(Ask::Take(Event::Exited { task: 4, code: 0 })); // on the disk, with the grants behind it
//! let (disk, history) = site.close();
//! ```
#![tactic(auto)]

mod ask;
mod claims;
mod hearing;
mod indexed;
mod site;
mod taking;

pub use ask::{Ask, Entry, History, Progress, Reply};
pub use durable_build::saved_thread;
pub use journal_core::TakeFault;
pub use program_lock::Stepped;
pub use site::SiteState;
