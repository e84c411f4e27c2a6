//! The flow graph of a build: its flow nodes, numbered from 2 on, and the text that shows them.
//!
//! A contract sees a [`Graph`] as the list of its nodes. It begins with the start node, and each further node has the
//! next number. A graph takes at most 65,536 nodes; the end node of a build is under no limit. The text has a line for
//! each node, in the form of `model_run` (`specs/GraphText`).
//!
//! ```
//! let mut graph = Graph::start(alloc)?;
//! let echo = graph.add(NodeKind::Atom, Text::from_str(alloc, "echo")?, 0, Ids::from_slice(alloc, &[2])?)?;
//! graph.end(Ids::from_slice(alloc, &[echo])?)?;
//! assert!(graph.text()?.as_slice() == b"2 start\n3 atom echo <- 2\n4 end <- 3\n");
//! ```
#![tactic(auto)]

mod graph;
mod refusal;
mod text;

pub use graph::Graph;
pub use refusal::NodeRefusal;
