//! The methods of lists and maps that take no closure, `toString()` and `equals(v)` of them included.
//!
//! The rules are the method table of `model_values`, under this product's limits. [`call`] looks the name up once; a
//! method is one function, whose contract is its row of the table. What changes a list or a map changes its cell in
//! place; what gives a list (`reverse`, `keySet`, `values`) gives a new one.
//!
//! ```
//! let list = perform(heap, Effect::NewList(Values::new(alloc)))?;
//! let added = call(alloc, heap, &list, b"add", &[Value::Int(7)], count)?;
//! assert_eq!(added, Some(Value::Bool(true)));
//! let last = call(alloc, heap, &list, b"last", &[], count)?;
//! assert_eq!(last, Some(Value::Int(7)));
//! ```
#![tactic(auto)]

mod calls;
mod contents;
mod keys;
mod lists;
mod maps;
mod search;
mod throws;

pub use calls::call;
