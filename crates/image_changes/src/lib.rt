//! What changed of a build from one of its images to a later one.
//!
//! [`changes_between`] gives the delta that leads from the image before to what stands in the build now ([`Now`]):
//! `delta_form::apply` makes the image now of the image before. The delta holds what changed alone: of two images there
//! is one such. What is known to stand as it stood is not compared: the variables from before, the cells that are not
//! marked, the flow nodes and the log from before, what an open request asks and what came to its output before, and a
//! thread that took no turn, or else the frames of it that are known to be the same ([`NowThread`]). So it takes the
//! time of what changed, of how many requests and threads there are, and of what threads wait for.
//!
//! ```text
//! let delta = changes_between(alloc, &before, &now)?;
//! let image = apply(alloc, before, delta)?; // that of the build now
//! ```
#![tactic(auto)]

mod between;
mod lists;
mod now;
mod requests;
mod rewrite;
mod same;
mod threads;
mod waits;
mod walk;
mod written;

pub use between::changes_between;
pub use now::{Now, NowThread};
