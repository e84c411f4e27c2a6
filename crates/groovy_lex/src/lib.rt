//! The tokens of a script.
//!
//! [`lex`] gives the tokens of Groovy source in the part of Groovy that scripted Pipelines use, or the script's one
//! lexical fault with the tokens before it. What tokens and faults are stands in `model_syntax` (`Reading`, `Tokens`):
//! `lex` is proved to give exactly those, and no others. [`place_of`] tells the line and the column of a byte.
//!
//! ```
//! let tokens = lex(alloc, b"echo 'hi'")?;
//! assert!(tokens.len() == 2);
//! ```
#![tactic(auto)]

mod characters;
mod code;
mod comments;
mod contents;
mod escapes;
mod found;
mod inside;
mod lexer;
mod names;
mod newlines;
mod numbers;
mod open;
mod path;
mod place;
mod raw;
mod signs;
mod source;
mod step;
mod words;

pub use lexer::{LexRefusal, lex};
pub use place::place_of;
