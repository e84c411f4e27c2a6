//! The methods of a script's values that are no list and no map: texts, numbers, throwables, and the two that every
//! value has, `toString()` and `equals(v)`.
//!
//! The rules are the method table of `model_values`, under this product's limits. [`call`] looks the name up once; a
//! method is one function, which only reads and says what is to be done (`Effect` of `value_ops`), and that is then
//! done. Positions and lengths count characters: a method that has one goes once over the bytes of its text.
//!
//! ```
//! let text = perform(heap, Effect::NewText(Text::from_str(alloc, " 42 ")?))?;
//! let number = call(alloc, heap, &text, b"toInteger", &[], count)?;
//! assert_eq!(number, Some(Value::Int(42)));
//! ```
#![tactic(auto)]

mod calls;
mod numbers;
mod parts;
mod search;
mod texts;
mod trim;
mod values;

pub use calls::call;
