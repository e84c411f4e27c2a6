//! The order of a task.

use crate::{Bytes, Pairs};

/// What a task writes: the log of the build, or the output that the step gives to the script.
#[derive(Clone, Copy, Debug, PartialEq, Eq)]
pub enum Stream {
    /// What the build's log gets: standard error, and standard output where it is not kept.
    Log,
    /// Standard output where the step keeps it.
    Out,
}

/// What the controller wants run.
#[derive(Clone, Drop)]
pub struct Order {
    /// The task's number. It names the task's folder, and no other task of the build has it.
    pub task: u32,
    /// The number of the executor on which it is to run.
    pub executor: u32,
    /// The path of the executor's workspace, beside which the task's folder stands.
    pub workspace: Bytes,
    /// The path of the folder in which the script runs.
    pub folder: Bytes,
    /// The variables that the script sees besides those of the host; of two with one name the later counts.
    pub env: Pairs,
    /// The script.
    pub script: Bytes,
    /// Whether standard output is kept apart, as `Stream::Out`.
    pub keep_out: bool,
    /// How many bytes of `Stream::Log` were taken before this order was made.
    pub kept_log: u64,
    /// How many bytes of `Stream::Out` were taken before this order was made.
    pub kept_out: u64,
}
