//! What the machine does with the expressions that make a value: a text, a closure, a name; and what it makes of the values
//! that a node has gathered from left to right: a list, a map, a text with parts, a throwable, and the map of the arguments
//! with names of a call.
//!
//! A function that ends a node makes one move, and its contract is that of all moves (`ComesTo` of `cps_frames`) against the
//! definitions of `model_run` (`specs/Forms`, `specs/Gathering`).
//!
//! ```
//! // `[a, b]`, behind its values
//! tick(shared)?;
//! let list = perform(&mut shared.heap, Effect::NewList(values))?;
//! Ok(Move::Ends(Ending::Normal(list)))
//! ```
#![tactic(auto)]

mod atoms;
mod built;
mod entries;
mod named;

pub use atoms::{closure, literal, variable};
pub use built::{list, map, text, throwable};
pub use named::{closes_named, named_count, named_entries, with_map};
