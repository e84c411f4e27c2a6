//! The queue of the `node` steps that wait for an executor.
//!
//! [`Queue`] keeps the executors of a site, the request that holds each, and the waiting requests in the order in which
//! they were asked. It is proved to grant as the definitions say (`model_run`, `Grants`): the earliest waiting request
//! that some free executor fits gets the first such executor in the order of the agents file, and there is no grant
//! exactly where no waiting request fits a free executor. [`Queue::rebuild`] makes the queue of a build that was
//! interrupted, from its open requests and held executors.
//!
//! ```
//! let mut queue = Queue::new(alloc, &site)?;
//! queue.ask(1, parse(alloc, b"linux")?)?;
//! assert!(queue.next_grant() == Some((1, 0)));
//! assert!(queue.release(1));
//! ```
#![tactic(auto)]

mod queue;
mod refusal;
mod seat;
mod waiting;

pub use queue::Queue;
pub use refusal::QueueRefusal;
