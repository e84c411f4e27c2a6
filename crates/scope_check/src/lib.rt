//! The scope faults of a script that is in the grammar: a name or a function that is declared twice, and a `break` or
//! `continue` outside of the loops of its own function or closure.
//!
//! The one public call is [`check`]. It answers `Ok` exactly where the tree has no scope fault, and else the first fault
//! in the order of the script, or that memory was refused. What a scope fault is stands in `model_syntax`'s
//! `specs/Scopes`; `specs/Faults` has all faults of a tree, and the first is the one with the least place
//! (`proofs/TokenPlaces`). The call goes once through the tree ([`walk`]), as deep in calls as the tree is, and a name
//! takes time in the logarithm of the number of names in its scope, whatever the names are ([`names`]).
//!
//! ```
//! // `def x = 1`, and `def x = 2` in the second line
//! let fault = ScriptFault { line: 2, column: 5, kind: FaultKind::NameAlreadyDeclared };
//! assert!(check(alloc, &tree) == Err(ScriptRefusal::Fault(fault)));
//! ```
#![tactic(auto)]

mod first_fault;
mod names;
mod scopes;
mod stack;
mod walk;

pub use first_fault::check;
