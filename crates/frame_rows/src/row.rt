//! Rows of the table of frames.

/// What a kept value of a frame is.
#[derive(Clone, Copy, Debug, PartialEq, Eq)]
pub enum Sort {
    /// Any value; a cell that it names is there.
    Any,
    /// A whole number from 0 up to this one.
    UpTo(u32),
    /// A whole number from 0 on.
    Count,
    /// A truth value.
    Flag,
    /// The number of a flow node of the build.
    FlowNode,
    /// The cell of a closure.
    Closure,
    /// The cell of a throwable.
    Throwable,
    /// The cell of a text, or null.
    TextOrNull,
}

/// How many values may follow those that a row lists; they are of any sort.
#[derive(Clone, Copy, Debug, PartialEq, Eq)]
pub enum Further {
    None,
    One,
    Many,
}

/// What stands directly inside a frame: what it is evaluating, or what it waits for. Parts are counted from 0.
#[derive(Clone, Copy, Debug, PartialEq, Eq)]
pub enum Within {
    /// This part of the node.
    Part(u32),
    /// A part of a part: first the outer one.
    Inner(u32, u32),
    /// This part, which is a suffix, on the value before it.
    Suffix(u32),
    /// The body of any closure or function.
    Called,
    /// The body of the closure at the frame's own node.
    OwnBody,
    /// A wait for an executor.
    Executor,
    /// A wait for a task.
    Task,
    /// A wait for a person.
    Person,
    /// A wait for branches.
    Branches,
}

/// A row of the table of frames: what holds of a frame of one kind at one node, where so many parts of the node still come
/// behind the one that is being evaluated.
#[derive(Clone, Copy, Debug)]
pub struct Row {
    /// Whether a frame of the kind may stand at the node at all.
    pub stands: bool,
    /// Whether the parts are told apart; where they are not, no part comes behind.
    pub told: bool,
    /// What the number of parts that still come is below.
    pub limit: u32,
    /// How many parts are done: the frame's place in an image.
    pub done: u32,
    /// How many values of any sort the frame keeps first.
    pub any: usize,
    /// Of which sorts the values behind them are.
    pub sorts: &'static [Sort],
    /// How many values may follow these.
    pub further: Further,
    /// What stands directly inside the frame.
    pub inside: Within,
}
