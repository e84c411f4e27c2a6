//! What a script is: the bytes that are its tokens, the tokens that are its tree, its first fault, and its syntax nodes
//! with their numbers.
//!
//! The types are plain data for lexer, parser, scopes and machine. What they mean stands in `specs/`, by rules and not
//! by steps, and the crates above are proved against it:
//!
//! - `Source`, `Places`: the script's bytes by their places, lines and columns.
//! - `Spelling`, `TextForms`, `OpenBrackets`, `Reading`, `Newlines`, `Tokens`: the token relation, and the one lexical
//!   fault of a script that has no tokens.
//! - `Stream`, `Lookahead`, `Operators`, `Grammar`, `Scripts`: the grammar, from tokens to the tree.
//! - `Scopes`: the scope faults of a tree. `FirstFault`: which fault is a script's first. `FaultTexts`: their texts.
//! - `Nodes`, `TreeNodes`: a tree as one kind of node, and the numbers of its nodes.
//!
//! What is proved of them stands in `proofs/`: every script has tokens or a lexical fault (`ScriptExistence`), and they
//! are the only ones (`TokenLaws`) and in order (`TokenOrder`); a script has at most one first fault
//! (`FirstFaultLaws`); the numbers of a tree are those below its size, each once, and name their parts (`NodeLaws`).
//! The brackets of a script's tokens nest at most 128 deep (`BracketDepth`, `BracketDepthLaws`).
//! `TokenExamples`, `CutOffExamples`, `GrammarExamples`, `FaultExamples`, `ScopeExamples` and `NumberExamples` work small
//! scripts out.
//! `StepLemmas`, `TreeNodeLaws` and `ScopeLaws` are for the proofs of lexer, numbering and scope check.
//!
//! ```
//! let fault = ScriptFault { line: 1, column: 7, kind: FaultKind::UnexpectedToken };
//! assert!(format!("{}", fault.kind) == "unexpected token");
//! ```
#![tactic(auto)]

mod fault;
mod node;
mod place;
mod sign;
#[cfg(test)]
mod tests;
mod token;
mod tree;
mod word;

pub use fault::{FaultKind, ScriptFault, ScriptRefusal};
pub use node::NodeForm;
pub use place::{Declared, Place};
pub use sign::Sign;
pub use token::{Token, TokenKind, Tokens};
pub use tree::{
    Access, Arguments, Arm, AssignSign, Assignment, Catch, Caught, Choice, Entry, Expr, Function,
    Init, NewClass, Operand, Operator, Part, Prefix, Stmt, Suffix, Target, Top, Tree,
};
pub use word::Word;
