//! The syntax of a script as a table of numbered nodes, for the machine that runs it.
//!
//! [`number`] gives each node of a tree a number, from 0 on in the order of the script, an outer node before those within
//! it. A contract sees a [`Code`] as the script's term of `model_run` (`specs/Terms`): the node of the script with its
//! number, and its parts within it with theirs. Each node is found by its number (`Found`), and the numbers of its parts
//! find its parts. The functions of the script are found by their names ([`Code::function`]).
//!
//! ```
//! // `while (true) { }`: the script, the loop, its test and its block
//! let code = number(alloc, tree)?;
//! assert!(code.len() == 4);
//! assert!(code.part(1, 0) == Some(2) && code.part(1, 1) == Some(3) && code.part(1, 2) == None);
//! ```
#![tactic(auto)]

mod code;
mod functions;
mod row;
mod table;
mod walk;

pub use code::{Code, number};
