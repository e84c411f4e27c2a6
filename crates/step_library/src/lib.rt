//! The steps of a Pipeline: what each of them does, with its lines, its flow nodes and its body, and how it goes on behind
//! its body or behind what it waited for.
//!
//! [`begin`] begins a step whose arguments were evaluated, and [`go_on`] goes on with each frame of a step. Both are proved
//! to do exactly what the definitions of `model_run` (`Steps`) say, by the one contract of the machine's functions.
//!
//! ```
//! // `echo 'hi'`
//! let next = begin(&mut state, &mut shared, node, env, Step::Echo, arguments)?;
//! ```
#![tactic(auto)]

mod atoms;
mod beginning;
mod blocks;
mod bodies;
mod branches;
mod catch_error;
mod context;
mod frames;
mod input;
mod kept;
mod lines;
mod nodes;
mod parallel;
mod places;
mod retry;
mod settings;
mod shell;

pub use beginning::begin;
pub use branches::{branch_frame, end_branch};
pub use frames::go_on;
