//! The names of the methods that a script can call on its values.
//!
//! The method table of `model_values` says what each method gives, and its `MethodTable` says of a name alone whether
//! a kind of value has such a method with so many arguments.
#![tactic(auto)]

mod method;

pub use method::Method;
