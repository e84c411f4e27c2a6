//! What a script computes with: values, the cells that hold its texts, lists, maps, closures and throwables, and
//! the rules by which they are compared, joined, indexed and asked.
//!
//! A value is null, a truth value, a whole number of 32 bits, or the number of a cell. The types stand here; what
//! they mean stands in `specs/`, one table a module, as functions from a plain list of cells and values to a new
//! list of cells and a value, a thrown cell or a limit. Those tables are the only rules: every crate above cites
//! them, and `proofs/` computes worked examples of each of their rows.
//!
//! ```
//! let mut entries = Entries::new(alloc);
//! entries.put(Key::Text(Text::from_str(alloc, "b")?), Value::Int(1))?;
//! entries.put(Key::Int(3), Value::Null)?;
//! assert!(entries.get(&Key::Int(3)) == Some(Value::Null));
//! ```
#![tactic(auto)]

mod cell;
mod entries;
mod key;
mod limit;
mod operator;
mod places;
mod throwable;
mod value;

pub use cell::{Binding, Cell, Env};
pub use entries::Entries;
pub use key::Key;
pub use limit::LimitKind;
pub use operator::Op;
pub use throwable::Class;
pub use value::{Outcome, Value, Values};
