//! Declarations, assignments to a name, a property or an entry, and `++` and `--` as statements.
//!
//! The rules are those of `Assignments` and `Names` of `model_run`: what a target is of and its index come first, then the
//! value; a sign as `+=` reads its target before its value is evaluated. Each function here is one of these definitions, with the one
//! contract of the machine (`ComesTo` of `cps_frames`). [`start`] begins a statement, and [`go_on`] goes on where what stood inside
//! one of its frames has ended.
//!
//! ```
//! // `x = 7`, where no x is declared: behind its value
//! let step = go_on(state, shared, frame, Ending::Normal(Value::Int(7)))?;     // Move::Ends(Ending::Normal(Value::Int(7)))
//! ```
#![tactic(auto)]

mod assign;
mod declare;
mod dispatch;
mod places;
mod targets;

pub use dispatch::{go_on, start};
