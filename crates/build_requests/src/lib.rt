//! The open requests and the held executors of a build: what a build says to an event, and what an accepted event changes
//! of them.
//!
//! [`answer_first`] and [`answer_running`] are proved to answer as the definitions say (`model_run`, `Taking`). The other
//! functions are the changes: a request is closed, an executor is held in the workspace of the lowest free number, and
//! output of a task is counted or kept.
//!
//! ```
//! let taken = answer_running(alloc, &site, requests.as_slice(), held.as_slice(), &event)?;
//! if taken == Taken::Accepted {
//!     let closed = close(&mut requests, request);
//! }
//! ```
#![tactic(auto)]

mod answers;
mod executors;
mod output;
mod requests;
mod waiting;

pub use answers::{answer_first, answer_running};
pub use executors::hold_executor;
pub use output::{count_taken, keep_output, kept_len, take_output};
pub use requests::{close, request_of};
pub use waiting::{input_of, open_tasks, waiting_inputs};
