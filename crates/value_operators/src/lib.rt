//! The operators on a script's values: arithmetic, joining, order, ranges, and indexes and properties, read and written.
//!
//! The rules are the tables of `model_values`, under this product's limits. Each call has the contracts `Answers` and
//! `Leaves` of `value_view`: the value that it gives, the throwable that it throws or the limit that it meets, with
//! the cells afterwards, are those of the table.
//!
//! ```
//! let longer = apply(alloc, heap, Op::Plus, &list, &Value::Int(7))?;
//! assert!(get_at(alloc, heap, &longer, &Value::Int(-1))? == Value::Int(7));
//! ```
#![tactic(auto)]

mod index;
mod operators;

pub use index::{get_at, get_property, set_at, set_property};
pub use operators::{apply, decremented, incremented};
