//! Label expressions, by which a `node` step says on which executors it may run.
//!
//! [`parse`] reads a label: names, names in double quotes, `!`, `&&`, `||`, `->`, `<->` and parentheses, with the signs
//! of Jenkins. It is proved to give exactly the expression of the definitions (`model_run`, `Labels`), or the one fault
//! with its place. [`read_label`] reads the label that a `node` step keeps, which may be absent or blank.
//! [`LabelExpr::matches`] tells whether an executor with these labels fits, and takes no memory.
//!
//! ```
//! let expr = parse(alloc, b"linux && !win")?;
//! assert!(expr.matches(&[Text::from_str(alloc, "linux")?]));
//! assert!(parse(alloc, b"a -> b -> c").err() == Some(LabelRefusal::Fault { at: 7 }));
//! ```
#![tactic(auto)]

mod condition;
mod label;
mod lexer;
mod parser;
mod refusal;
mod token;

pub use condition::LabelExpr;
pub use label::read_label;
pub use parser::parse;
pub use refusal::LabelRefusal;
