//! The agents file: what executors a build has.
//!
//! [`read_agents`] gives the site that a file means, or the first fault of the file with its path and its kind. What a file
//! means, and which fault is its first, stands in `model_run` (`AgentsFile`, `AgentsFaults`): `read_agents` is proved to give
//! exactly that. The form of the file is this product's own; JSON is as `serde_json` reads it.
//!
//! ```
//! let site = read_agents(alloc, b"{\"job\":\"demo\",\"agents\":[{\"name\":\"m\",\"root\":\"/w\",\"executors\":1}]}")?;
//! assert!(site.looks == 100_000);
//! assert!(site.executors.len() == 1);
//! ```
#![tactic(auto)]

mod agent;
mod agents;
mod file;
mod keys;
mod members;
mod path;
mod read;
mod refusal;
mod site;

pub use read::{FILE_LIMIT, read_agents};
pub use refusal::AgentsRefusal;
