//! Variables: those that were declared, by the cells that an environment names, and binding variables, which stand by rising names
//! in what the green threads of a build share.
//!
//! The rules are those of `Names` of `model_run`. What ends a node has the one contract of the machine (`ComesTo` of
//! `cps_frames`), and what only reads or makes a variable that of an operation on values (`Done`). A name is looked up
//! among the variables declared in front of it, one after the other, and then in time logarithmic in the number of the
//! binding variables; a new one moves those that come behind it by name.
//!
//! ```
//! // the statement `x = value`, where x may be declared or not
//! write_name(shared, b"x", &frame.env, value)
//! ```
#![tactic(auto)]

mod names;
mod nodes;
mod variables;

pub use names::{look, look_binding};
pub use nodes::{kept_value, part_form, value_at};
pub use variables::{declare, new_variable, read_name, variable, write_name};
