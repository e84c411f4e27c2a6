//! Hosts: what runs the tasks of one executor.
//!
//! A task is one `sh` step. The controller orders it from a [`Host`], which has a folder for each task, launches it, and
//! tells its state and its output. The trait says what an honest host does, in clauses on a few meanings: the folders
//! that stand, the launches, the output of each task, the calls. Whoever runs tasks over a `Host` proves from these
//! clauses alone that a task is launched at most once, and that its output is taken once and whole.
//!
//! [`MemoryHost`] is an honest host in memory, whose tasks do what a list of outcomes says. It can be told to fail at
//! certain calls, keeps a list of all calls, and can be handed from one life of the controller to the next.
//!
//! ```text
//! let mut host = MemoryHost::new(alloc, Numbers::new(alloc), outcomes);
//! host.make_dir(&order);  // Made::Made, and Made::Exists when asked again
//! host.start(&order);     // Started::Started: the task stands among the launches
//! host.look(&order);      // Look::Running, as often as its outcome says, and then Look::Exited(code)
//! ```
#![tactic(auto)]

mod answers;
mod call;
mod host;
mod memory;
mod order;
mod outcome;

pub use answers::{Look, Made, Started};
pub use call::Call;
pub use device_faults::Failed;
pub use host::Host;
pub use memory::MemoryHost;
pub use model_text::{Bytes, Pair, Pairs, Text};
pub use order::{Order, Stream};
pub use outcome::{TaskOutcome, TaskOutcomes};

/// Numbers of calls.
pub type Numbers = model_text::Sequence<u64>;
