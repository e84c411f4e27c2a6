//! Trials of the crates of values and their heap: tests alone, a module for each crate, by what the crate hands out.
//!
//! They stand above those crates, so that a crate is proved once and not once more with its tests. What can be told by rows
//! of text, as operators and methods, stands in `operation_trials`.
#![tactic(auto)]

#[cfg(test)]
mod effects; // value_ops
#[cfg(test)]
mod heaps; // cell_heap
#[cfg(test)]
mod methods; // method_names
#[cfg(test)]
mod operators; // value_operators
#[cfg(test)]
mod values; // model_values
#[cfg(test)]
mod views; // value_view
#[cfg(test)]
mod walks; // value_walks
