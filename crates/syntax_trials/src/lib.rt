//! Trials of the crates that read a script: tests alone, by what those crates hand out.
//!
//! They stand above those crates, so that a crate is proved once and not once more with its tests.
#![tactic(auto)]

#[cfg(test)]
mod scopes; // scope_check
#[cfg(test)]
mod script_table; // groovy_parse
#[cfg(test)]
mod scripts; // groovy_parse and expr_parser
#[cfg(test)]
mod sketch; // trees as text, for both
#[cfg(test)]
mod tokens; // groovy_lex
