use image_form::ImageFrame;
use model_run::{BuildResult, Context, HeldExecutors, NodeKind, OpenRequest, Wait};
use model_text::{Bytes, Ids, Sequence, Text};
use model_values::{Binding, Cell, Entries, Values};

/// What a cell is now.
#[derive(Drop)]
pub enum WrittenCell {
    /// All of it.
    Whole(Cell),
    /// A list, with these values behind those that it had.
    GrownList(Values),
    /// A map, with these entries behind those that it had, none of which has a key of theirs.
    GrownMap(Entries),
}

/// A cell that is new or was changed.
#[derive(Drop)]
pub struct NumberedCell {
    /// Its number; the first cell has 0.
    pub number: u32,
    /// What it is now.
    pub cell: WrittenCell,
}

/// Cells by rising numbers.
pub type NumberedCells = Sequence<NumberedCell>;

/// A flow node that is new. Its number is told by how many stand before it.
#[derive(Drop)]
pub struct NewNode {
    /// What it stands for.
    pub kind: NodeKind,
    /// The step's name or the body's label, and empty for all other kinds and a body without a label.
    pub name: Text,
    /// For the two ends of blocks the number of the node whose end it is, and 0 for all others.
    pub start: u32,
    /// The numbers of the nodes that come right before it, in order.
    pub parents: Ids,
}

/// New flow nodes in order.
pub type NewNodes = Sequence<NewNode>;

/// An open request that is new or was changed.
#[derive(Drop)]
pub enum WrittenRequest {
    /// All of it.
    Whole(OpenRequest),
    /// A task of which only output was taken.
    Grown {
        /// Its number.
        number: u32,
        /// How many bytes of its log stream are taken now.
        taken: u64,
        /// The bytes of its output stream that came to those that were taken before.
        out: Bytes,
    },
}

/// Requests by rising numbers.
pub type WrittenRequests = Sequence<WrittenRequest>;

/// A green thread that is new or was changed.
#[derive(Drop)]
pub struct WrittenThread {
    /// Its number; the script's thread has 0.
    pub number: u32,
    /// The number of the thread whose `parallel` it is a branch of; the script's thread has none.
    pub parent: Option<u32>,
    /// The number of its last flow node.
    pub head: u32,
    /// What it waits for: a request, or its branches.
    pub wait: Wait,
    /// The executors, folders and variables of the `node`, `dir` and `withEnv` bodies round it.
    pub context: Context,
    /// How many of its frames, from the outermost on, are those that it had. A new thread keeps none.
    pub kept: u32,
    /// Its frames behind these, outermost first.
    pub frames: Sequence<ImageFrame>,
}

/// Green threads by rising numbers.
pub type WrittenThreads = Sequence<WrittenThread>;

/// What changed from one image of a build to the next.
#[derive(Drop)]
pub struct Delta {
    /// The number that the next request gets.
    pub next_request: u32,
    /// The number that the next green thread gets.
    pub next_thread: u32,
    /// The result so far.
    pub result: BuildResult,
    /// Whether the build has ended.
    pub ended: bool,
    /// The new variables of the script's binding, by rising names.
    pub bindings: Sequence<Binding>,
    /// The cells that are new or were changed, by rising numbers.
    pub cells: NumberedCells,
    /// The new flow nodes.
    pub nodes: NewNodes,
    /// What was logged.
    pub log: Bytes,
    /// The numbers of the requests that are no longer open, rising.
    pub closed_requests: Ids,
    /// The open requests that are new or were changed, by rising numbers.
    pub requests: WrittenRequests,
    /// All held executors, by rising numbers of executors.
    pub held: HeldExecutors,
    /// The numbers of the green threads that have ended, rising.
    pub ended_threads: Ids,
    /// The green threads that are new or were changed, by rising numbers.
    pub threads: WrittenThreads,
}
