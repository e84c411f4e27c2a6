//! What an operation on values does once it has read its operands: it gives a value, makes new cells, changes a list
//! or a map, or throws.
//!
//! The rules are the tables of `model_values`, under this product's limits. Each call here that changes the heap has
//! one form of contract, `Answers` of `value_view`: the value that it gives, the throwable that it throws or the limit
//! that it meets, with the cells afterwards, are those of the table; only want of memory is no row of a table, and it
//! changes no cell. A second clause, `Leaves`, says that every cell that was changed is marked, and that what is given
//! names a cell that is there. What only reads its operands gives an [`Effect`], which [`perform`] does.
//!
//! ```
//! let list = perform(heap, Effect::NewList(Values::new(alloc)))?;
//! let effect = outside(alloc, 7, 0)?;
//! let thrown = perform(heap, effect);      // Err(OpRefusal::Thrown(..))
//! ```
#![tactic(auto)]

mod cells;
mod effect;
mod key;
mod throws;

pub use cells::{MAX_BYTES, MAX_CELLS, new_cells};
pub use effect::{Effect, MAX_ENTRIES, perform, push, put};
pub use key::key_of;
pub use throws::{
    bad_argument, bad_key, by_zero, empty_list, new_throwable, no_method, no_number, no_property,
    no_property_to_set, outside, throw_value, unknown_name, unknown_step,
};
