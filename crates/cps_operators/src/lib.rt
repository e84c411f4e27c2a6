//! What the machine does with the expressions that have operators and suffixes: `(e)`, signs, operators between operands,
//! `&&` and `||`, `?:`, `.name` and `[index]`.
//!
//! Each function makes one move, and its contract is that of all moves (`ComesTo` of `cps_frames`) against the definition
//! of its form in `model_run` (`specs/Expressions`). A function that begins a node takes its number and its variables; a
//! function that goes on behind a part takes the frame that was put up around the part, and the part's value.
//!
//! ```
//! // `a && b`, behind `a`
//! let holds = counted_truth(shared, &value)?;
//! if holds == is_and {
//!     operands(state, shared, frame.node, frame.env, frame.left)
//! } else {
//!     Ok(Move::Ends(Ending::Normal(Value::Bool(holds))))
//! }
//! ```
#![tactic(auto)]

mod chains;
mod choices;
mod groups;
mod joins;
mod moves;
mod operations;
mod parts;
mod suffixes;

pub use chains::{chain, chain_operand};
pub use choices::{chosen, chosen_test};
pub use groups::{group, group_value, prefixed, prefixed_operand};
pub use joins::{joined_all, joined_first, joined_operand};
pub use moves::{counted_value, inside_with};
pub use operations::raise;
pub use parts::{arity, current, part_form};
pub use suffixes::{index_value, indexed, property, suffixed_all, suffixed_part};
