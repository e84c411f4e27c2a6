//! Statements: rows of them, `if`, `while`, both forms of `for`, `try`, `return`, `throw`, `break`, `continue`, and an
//! expression that stands as a statement.
//!
//! The rules are those of `Statements` of `model_run`; each function here is one of its definitions, with the one contract
//! of the machine (`ComesTo` of `cps_frames`). [`start`] begins a statement, [`again`] is a further turn of a loop, and [`go_on`] goes on
//! where what stood inside one of a statement's frames has ended.
//!
//! ```
//! // behind the test of `while`
//! let step = go_on(state, shared, frame, Ending::Normal(Value::Bool(true)))?;     // Move::Enter(Entry::Turn(0, []), node, env)
//! ```
#![tactic(auto)]

mod arms;
mod attempts;
mod dispatch;
mod each;
mod endings;
mod finals;
mod loops;
mod rows;
mod steps;

pub use dispatch::{again, go_on, start};
