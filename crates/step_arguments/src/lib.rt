//! What a step is called with: the arguments of a call, bound to the parameters of its step.
//!
//! A call gives its arguments in their order. A closure that stands last is the step's body; one argument without a name
//! is the main parameter; a single map has the arguments with names. [`bind`] gives them as the step uses them, or the
//! first fault of the call, in the order of the table of `model_run` (`StepTable`, `bind_step`).
//!
//! ```
//! // `stage('Build') { .. }`
//! match bind(alloc, heap, Step::Stage, arguments)? {
//!     Bound::Stage { name, body } => ..
//! }
//! ```
#![tactic(auto)]

mod binding;
mod bound;
mod checks;
mod fits;
mod given;
mod parameters;
mod refusal;
mod uses;

pub use binding::bind;
pub use bound::Bound;
pub use refusal::BindRefusal;
