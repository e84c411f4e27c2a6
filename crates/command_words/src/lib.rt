//! The words of the command line: which of them are which command, with its folder or its number of stages.
//!
//! ```text
//! let Some((command, operand)) = command_in(&words) else {
//!     return usage();
//! };
//! ```
#![tactic(auto)]

mod command;
mod parser;
mod words;

pub use command::Command;
pub use parser::read_command;
pub use words::command_in;
