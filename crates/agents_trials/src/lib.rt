//! Trials of agents files: tests alone. They stand above `agents_file`, so that it is proved once and not once more with its tests.
#![tactic(auto)]

#[cfg(test)]
mod agents; // agents_file
