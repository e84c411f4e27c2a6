//! Trials of the parts of a build: tests alone, a module for each crate, by what the crate hands out.
//!
//! They stand above those crates, so that a crate is proved once and not once more with its tests.
#![tactic(auto)]

#[cfg(test)]
mod arguments; // step_arguments
#[cfg(test)]
mod generated; // generated_build
#[cfg(test)]
mod graphs; // flow_graph
#[cfg(test)]
mod heaps; // cell_heap
#[cfg(test)]
mod labels; // label_expr
#[cfg(test)]
mod logs; // build_log
#[cfg(test)]
mod queues; // agent_queue
#[cfg(test)]
mod runs; // model_run
