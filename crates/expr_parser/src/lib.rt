//! Reads one expression after the other from the tokens of a script.
//!
//! [`Parser`] reads each by `groovy_expr`, and looks at the token behind it: what may not follow an expression is the
//! fault, as the `(` of `1 (2)`. [`is_shallow`] tells of any tokens whether they may be read: their brackets nest at most
//! 128 deep.
#![tactic(auto)]

mod depth;
mod parser;
mod refusal;

pub use depth::is_shallow;
pub use parser::Parser;
pub use refusal::ExprRefusal;
