//! A build over a disk: each event that it accepts is durable, with the build's image after it, when it is answered.
//!
//! The disk holds a journal, a record for each event (`delta_records`): the event, and the image of the build after it or
//! what changed alone of the image before. Which of the two is told by the bytes of the records before, so that the whole
//! images but the last take together at most as much as all else (`specs/Kinds`). [`DurableBuild::open`] goes on from the
//! image of the last record, which it finds from the last whole image on; of the records before that one it reads the
//! framing, and the whole of the first one, which has the script and the agents file.
//!
//! ```text
//! let mut build: DurableBuild<FileDisk, Thread> = DurableBuild::create(alloc, disk, Build::new(alloc, code, site)?)?;
//! build.take(alloc, &Event::Start { script, agents })?; // on the disk
//! let disk = build.close();
//! // in another process
//! let mut build: DurableBuild<FileDisk, Thread> = DurableBuild::open(alloc, disk)?;
//! build.take(alloc, &Event::Decided { request: 1, proceed: true, name })?;
//! ```
#![tactic(auto)]

mod changes;
mod durable;
mod faults;
mod load;
mod opening;
mod store;

pub use build_images::{build_core, saved_thread, script_thread};
pub use durable::DurableBuild;
pub use faults::StoreFault;
pub use journal_core::TakeFault;
