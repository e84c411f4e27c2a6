//! Parses whole scripts.
//!
//! [`parse`] gives the tree of a script's bytes, or its first fault with the line and the column: of its tokens, of its
//! syntax, or of its scopes. What a tree, a fault and "first" are stands in `model_syntax` (`Scripts`, `FirstFault`):
//! `parse` is proved to give exactly those. [`parse_tokens`] does the same for a list of tokens, and tells the token.
//!
//! ```
//! let tree = parse(alloc, b"def greet(name) { echo name }\ngreet('you')")?;
//! assert!(tree.tops.len() == 2);
//! let fault = ScriptFault { line: 1, column: 9, kind: FaultKind::UnexpectedToken };
//! assert!(parse(alloc, b"foo bar baz").err() == Some(ScriptRefusal::Fault(fault)));
//! ```
#![tactic(auto)]

mod function;
mod join;
mod script;

pub use join::{SCRIPT_LIMIT, parse};
pub use script::parse_tokens;
