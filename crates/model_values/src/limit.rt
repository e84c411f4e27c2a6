/// The limits that end a build, from the one that counts first where an operation meets two.
#[derive(Clone, Copy, Debug, PartialEq, Eq)]
pub enum LimitKind {
    /// Syntax nodes evaluated for one event.
    NodesEvaluated,
    /// Calls open in one green thread.
    CallDepth,
    /// Bytes of a text.
    TextLength,
    /// Entries of a list or a map.
    CollectionSize,
    /// Lists and maps inside each other, in the text of a value and in an equality.
    ValueDepth,
    /// Cells of a build.
    Cells,
    /// Bytes of all cells of a build.
    HeapBytes,
    /// Flow nodes of a build.
    FlowNodes,
    /// Bytes of a build's log.
    LogSize,
    /// Green threads that live at once.
    GreenThreads,
}

impl LimitKind {
    ghost use Rattle.std.specs.Prelude.{◌≡◌};
    ghost use Rattle.model_values.specs.Limits.{limit_name};

    /// What the log calls it, behind `Limit reached: `.
    pub fn name(self) -> &'static str
        ensures { result.now ≡ limit_name self }
    {
        match self {
            LimitKind::NodesEvaluated => "nodes evaluated",
            LimitKind::CallDepth => "call depth",
            LimitKind::TextLength => "text length",
            LimitKind::CollectionSize => "collection size",
            LimitKind::ValueDepth => "value depth",
            LimitKind::Cells => "cells",
            LimitKind::HeapBytes => "heap bytes",
            LimitKind::FlowNodes => "flow nodes",
            LimitKind::LogSize => "log size",
            LimitKind::GreenThreads => "green threads",
        }
    }
}
