use model_run::{BuildResult, Context, FlowNodes, HeldExecutors, OpenRequests, Wait};
use model_text::{Bytes, Sequence};
use model_values::{Binding, Cell, Env, Values};

/// What a green thread still has to do at a syntax node: a frame, with its kind by number.
#[derive(Drop)]
pub struct ImageFrame {
    /// The number of its kind.
    pub kind: u8,
    /// The number of the syntax node.
    pub node: u32,
    /// How many parts of the node are done.
    pub at: u32,
    /// The variables that the place sees, innermost first.
    pub env: Env,
    /// The results that are still needed.
    pub values: Values,
}

/// A green thread.
#[derive(Drop)]
pub struct ImageThread {
    /// Its number; the script's thread has 0.
    pub number: u32,
    /// The number of the thread whose `parallel` it is a branch of; the script's thread has none.
    pub parent: Option<u32>,
    /// The number of its last flow node.
    pub head: u32,
    /// What it waits for: a request, or its branches.
    pub wait: Wait,
    /// The executors, folders and variables of the `node`, `dir` and `withEnv` bodies round it.
    pub context: Context,
    /// What it still has to do, outermost first.
    pub frames: Sequence<ImageFrame>,
}

/// Green threads in order of their numbers.
pub type ImageThreads = Sequence<ImageThread>;

/// A build whose threads all wait, or that has ended.
#[derive(Drop)]
pub struct Image {
    /// The number that the next request gets.
    pub next_request: u32,
    /// The number that the next green thread gets.
    pub next_thread: u32,
    /// The result so far.
    pub result: BuildResult,
    /// Whether the build has ended.
    pub ended: bool,
    /// The variables of the script's binding, by rising names.
    pub bindings: Sequence<Binding>,
    /// The cells; the first has number 0.
    pub cells: Sequence<Cell>,
    /// The flow nodes; the first has number 2.
    pub nodes: FlowNodes,
    /// The log so far.
    pub log: Bytes,
    /// The open requests, by rising numbers.
    pub requests: OpenRequests,
    /// The held executors, by rising numbers of executors.
    pub held: HeldExecutors,
    /// The green threads, by rising numbers.
    pub threads: ImageThreads,
}
