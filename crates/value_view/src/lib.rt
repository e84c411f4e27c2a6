//! What a script's value is: its kind with what its cell holds, its truth, its text, and whether it equals another.
//!
//! The rules are the tables of `model_values`, under this product's limits. Nothing here changes the heap, and only
//! what builds a text takes memory. `Answers` and `Leaves` in `specs/` are the contract of every call of the crates
//! above that does change it: the value that it gives, the throwable that it throws or the limit that it meets, with
//! the cells afterwards, are those of a table; only want of memory is no row of a table, and it changes no cell.
//!
//! ```
//! let seven = Value::Int(7);
//! assert!(truth(heap, &seven));
//! assert!(equal(heap, &seven, &Value::Int(7), &mut count)?);
//! assert!(text_of(alloc, heap, &seven)? == Text::from_str(alloc, "7")?);
//! ```
#![tactic(auto)]

mod characters;
mod equality;
mod groovy_truth;
mod kind;
mod refusal;
mod text;

pub use characters::{character_count, character_range, start_count};
pub use equality::equal;
pub use groovy_truth::truth;
pub use kind::{Kind, kind_of};
pub use refusal::OpRefusal;
pub use text::{MAX_TEXT, text_of, write_bytes, write_value};
