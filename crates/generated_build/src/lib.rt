//! The build that the program makes by itself, of as many stages as asked for: its script and its agents file, and the six lines that
//! tell what became of it.
//!
//! ```text
//! let GeneratedFiles { script, agents } = generated_files(alloc, 3)?;
//! let lines = summary(alloc, 3, build.nodes(), records, build.log().len(), build.result())?;
//! ```
#![tactic(auto)]

mod files;
mod lines;

pub use files::{GeneratedFiles, generated_files};
pub use lines::summary;
