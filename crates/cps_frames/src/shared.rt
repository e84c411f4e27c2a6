//! What the green threads of a build share.

use build_log::Log;
use cell_heap::Heap;
use cps_code::Code;
use flow_graph::Graph;
use model_run::{BuildResult, HeldExecutors, OpenRequests, Site};
use model_values::Binding;
use std::alloc::Global;

/// What the green threads of a build share.
#[derive(Drop)]
pub struct Shared {
    pub code: Code,
    pub site: Site,
    pub heap: Heap,
    /// The binding variables, by rising names.
    pub binding: Vec<Binding>,
    pub graph: Graph,
    pub log: Log,
    /// The result so far.
    pub result: BuildResult,
    pub requests: OpenRequests,
    pub held: HeldExecutors,
    /// The number of the next request.
    pub next_request: u32,
    /// How many nodes were evaluated for the event that is being taken.
    pub count: u32,
}

impl Shared {
    /// The allocator of a build.
    pub fn alloc(&self) -> Global {
        *self.binding.allocator()
    }
}
