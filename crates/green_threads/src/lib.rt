//! Green threads that one caller resumes in turn, as a build runs the branches of `parallel`.
//!
//! A [`Runner`] is a thread that is resumed with an answer and goes on up to its next stop: it waits for the answer to a
//! request, waits for branches that it begins, ends, or meets a limit. A [`Group`] holds such threads by rising numbers.
//! [`Group::settle`] resumes the lowest-numbered ready one until none is ready, and is proved to follow just this order,
//! for every thread that meets the trait (`specs/Order`). A thread that waits for branches goes on when the last of them
//! has ended, with their ends in the order of the branches. No new thread makes more than 256 live at once.
//!
//! A group never knows what a thread does; the trait's ghost functions say it in contracts.
//!
//! ```text
//! let mut group = Group::new(alloc);
//! group.spawn(script)?; // thread 0
//! while group.settle(&mut shared)? == Settled::AllWait {
//!     let (thread, answer) = next_event();
//!     group.answer(thread, answer)?;
//! }
//! ```
#![tactic(auto)]

mod group;
mod joins;
mod refusal;
mod runner;
mod settled;

pub use group::Group;
pub use refusal::{NotWaiting, SpawnRefusal};
pub use runner::{Branches, NewBranch, Runner, Seated, Stop};
pub use settled::Settled;
