//! Trials as text: a script, and a line for each thing that happens to it.
//!
//! A text of trials has one behind the other. Each begins with `=== ` and its name; then come lines of the script, and,
//! behind `> `, orders. Each program of trials reads its own orders.
//!
//! ```text
//! === an input that is approved
//! input 'go?'
//! > proceed 1 ann
//! ```
#![tactic(auto)]

mod read;

pub use read::{Trial, number_of, read_trial, split_word};
