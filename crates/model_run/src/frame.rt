use model_values::{Env, Values};

/// The kinds of frames: what a green thread still has to do at a syntax node when one of its parts, or what it waits
/// for, has ended. A thread's frames, outermost first, say all of where it stands.
///
/// The forms of nodes that a kind may stand at, the parts that it may stand around and the values that it keeps are
/// in the table of `specs/FrameTable.antt`.
#[derive(Clone, Copy, Debug, PartialEq, Eq)]
pub enum FrameKind {
    /// A statement of a script or a block.
    Statement,
    /// The test of an arm of `if`.
    IfTest,
    /// The test of `while`.
    WhileTest,
    /// The block of `while`.
    WhileBody,
    /// The first statement of `for (..; ..; ..)`.
    StepsFirst,
    /// Its test.
    StepsTest,
    /// Its block.
    StepsBody,
    /// Its last statement, behind a turn.
    StepsNext,
    /// What a `for` over elements goes over.
    EachOver,
    /// Its block.
    EachBody,
    /// The block of `try`.
    TryBlock,
    /// The block of a `catch`.
    TryCatch,
    /// The block of `finally`, behind a value.
    FinallyAfterValue,
    /// The block of `finally`, behind a throw.
    FinallyAfterThrow,
    /// The block of `finally`, behind `return`.
    FinallyAfterReturn,
    /// The block of `finally`, behind `break`.
    FinallyAfterBreak,
    /// The block of `finally`, behind `continue`.
    FinallyAfterContinue,
    /// The first value of a variable.
    DeclareValue,
    /// What a target is a property or an entry of.
    TargetReceiver,
    /// The index of a target.
    TargetIndex,
    /// The value that is assigned.
    AssignValue,
    /// The value of `return`.
    ReturnValue,
    /// The value of `throw`.
    ThrowValue,
    /// One of several values: an argument, an entry, a part of a text.
    Gathered,
    /// The key of an entry.
    GatheredKey,
    /// An expression in parentheses.
    GroupValue,
    /// A test before `?` or `?:`.
    ChosenTest,
    /// An operand of `&&` or `||`.
    ChainOperand,
    /// The first operand.
    JoinedFirst,
    /// A further operand.
    JoinedOperand,
    /// The operand of signs.
    PrefixedOperand,
    /// A primary, or a suffix of it.
    SuffixedPart,
    /// An index.
    IndexValue,
    /// The body of a closure or a function.
    CallBody,
    /// A turn of a method that walks with a closure.
    WalkTurn,
    /// The body of the step `stage`.
    StageBody,
    /// The body of the step `catchError`.
    CatchErrorBody,
    /// The body of the step `retry`.
    RetryBody,
    /// The step `node` waits for an executor.
    NodeWait,
    /// The body of the step `node`.
    NodeBody,
    /// The body of the step `dir`.
    DirBody,
    /// The body of the step `withEnv`.
    WithEnvBody,
    /// The step `sh` waits for its task.
    ShWait,
    /// The step `input` waits for a person.
    InputWait,
    /// The step `parallel` waits for its branches.
    ParallelWait,
    /// The closure of a branch of `parallel`.
    BranchBody,
}

/// What is still to be done at a node when something inside it has ended.
#[derive(Clone, PartialEq, Eq, Debug, Drop)]
pub struct Frame {
    pub kind: FrameKind,
    pub node: u32,
    /// How many parts of the node still come behind the one that is being evaluated, where these are told apart.
    pub left: u32,
    pub env: Env,
    /// The results that are still needed.
    pub values: Values,
}
