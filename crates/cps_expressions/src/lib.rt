//! What the machine does with expressions: it gathers several values from left to right (arguments, entries, the parts of a
//! text), and goes by the form of an expression or a suffix, and by the kind of a frame, to `cps_values`, `cps_operators` and
//! `cps_calls`.
//!
//! [`start`] begins an expression, [`suffix`] a suffix on the value before it, and [`go_on`] goes on behind a part. Each
//! makes one move, and its contract is that of all moves (`ComesTo` of `cps_frames`) against the definitions of
//! `model_run`.
//!
//! ```
//! // `[a, b]`, behind `b`
//! let mut kept = frame.values;
//! kept.push(value)?;
//! gather(state, shared, frame.node, frame.env, 0, kept)
//! ```
#![tactic(auto)]

mod expressions;
mod gathering;

pub use expressions::{go_on, start, suffix};
