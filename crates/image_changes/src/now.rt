//! The parts of a build as they stand now.

use cell_heap::Heap;
use image_form::{ImageFrame, ImageThread};
use model_run::{BuildResult, FlowNode, Held, OpenRequest, Wait};
use model_values::Binding;

/// The parts of a build as they stand now, borrowed: what an image of it holds, without a copy.
///
/// A contract says `image_seen` of it: the image that holds these parts.
#[derive(Drop)]
pub struct Now<'a> {
    /// The number that the next request gets.
    pub next_request: u32,
    /// The number that the next green thread gets.
    pub next_thread: u32,
    /// The result so far.
    pub result: BuildResult,
    /// Whether the build has ended.
    pub ended: bool,
    /// The variables of the script's binding.
    pub bindings: &'a [Binding],
    /// The cells, with the marks of those that are new or were written.
    pub cells: &'a Heap,
    /// The flow nodes.
    pub nodes: &'a [FlowNode],
    /// The bytes of the log.
    pub log: &'a [u8],
    /// The open requests.
    pub requests: &'a [OpenRequest],
    /// The held executors.
    pub held: &'a [Held],
    /// The green threads.
    pub threads: &'a [NowThread<'a>],
}

/// A green thread as it stands now.
///
/// A contract says `thread_seen` of it: the thread with all its frames.
#[derive(Drop)]
pub enum NowThread<'a> {
    /// A thread that took no turn since the image before: all but its parent and what it waits for is as there.
    Untouched {
        /// The thread, as the image before has it.
        stood: &'a ImageThread,
        /// The number of its parent, as its seat has it.
        parent: Option<u32>,
        /// What it waits for. A branch that ends changes that of its parent.
        wait: &'a Wait,
    },
    /// A thread that took a turn, or is new: its frames in front, from the outermost on, stand in the image before.
    Touched {
        /// The frames in front, as the image before has them.
        front: &'a [ImageFrame],
        /// The thread, with the frames behind those alone.
        thread: ImageThread,
    },
}
