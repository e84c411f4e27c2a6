//! The store of a build: how it is made, and how the build of one is had back.
//!
//! [`begin`] makes the store of a build and takes its `Start`; [`reopen`] has the build of a store as its last life left it, ended
//! or cut off. Each event is on the disk, with the image of the build behind it or with what it changed, before the next one comes.
//!
//! What the store holds at each moment, and so what a crash leaves, stands in `specs/Saved`; what holds of a life over it, and of an
//! event that was not taken, in `specs/Lives`.
//!
//! ```text
//! let durable: DurableBuild<_, Thread> = begin(alloc, disk, tree, site, script, agents)?;
//! let durable: DurableBuild<_, Thread> = reopen(alloc, durable.close())?;
//! ```
#![tactic(auto)]

mod beginning;
mod reopening;

pub use beginning::{BeginFault, begin};
pub use durable_build;
pub use durable_build::{build_core, saved_thread};
pub use reopening::reopen;
