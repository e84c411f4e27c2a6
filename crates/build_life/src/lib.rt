//! A life of a saved build with its hosts: from the build over its disk to how it ended.
//!
//! [`go_on`] makes the grants that a stop left out, lets the members (executors with their hosts, and the operator with the answers)
//! work on the build through the program lock, in rounds, and says why the life rests or which fault stopped it. Each event is on
//! the disk, with the image of the build behind it or with what it changed, before the next one comes.
//!
//! Which events come, and why, stands in `specs/Going`; how a life rests or breaks off in `specs/Lives`; what it makes of the
//! hosts and of the answers in `specs/Serving`; which orders were given and which lines heard in `specs/Telling`; and lives one
//! after the other in `specs/ManyLives`.
//!
//! ```text
//! match go_on(&rt, alloc, 8, durable, &mut members, 5) {
//!     Ok(Lived { site, ended: Ok(rest) }) => {}     // the build of `site` rests for this
//!     Ok(Lived { site, ended: Err(fault) }) => {}   // it was stopped by this fault
//!     Err((fault, disk)) => {}                      // a grant that a stop had left out was refused
//! }
//! ```
#![tactic(auto)]

mod going;
mod resting;

pub use build_store;
pub use build_store::{build_core, durable_build, saved_thread};
pub use going::{Lived, go_on};
pub use member_turns::locked_build;
pub use resting::Rest;
