//! The table of frames: a line for each kind.

ghost use Rattle.frame_rows.specs.Rows.{IsLine};

use crate::{Sort, Within};
use model_run::{FrameKind, Step};

/// The nodes that a kind of frame may stand at.
#[derive(Clone, Copy, Debug, PartialEq, Eq)]
pub(crate) enum Stand {
    /// Statements in a row.
    Block,
    If,
    While,
    ForSteps,
    ForEach,
    Try,
    Declaration,
    /// A change of a variable, a property or an entry.
    Target,
    Assignment,
    Return,
    Throw,
    /// What gathers several values.
    Gathering,
    Group,
    Chosen,
    /// `&&` or `||`.
    Chain,
    Joined,
    Prefixed,
    Suffixed,
    Index,
    /// A closure or a function.
    Callable,
    /// A call of a method that walks.
    Walk,
    Closure,
    /// A call of this step, which no variable hides.
    Call(Step),
}

/// What is asked of a part of the node besides.
#[derive(Clone, Copy, Debug, PartialEq, Eq)]
pub(crate) enum Asks {
    Nothing,
    /// The current part is an arm, a `catch`, a choice, not plain text, an entry with a computed key.
    Arm,
    Catch,
    Choice,
    NoPlainText,
    Computed,
    /// The last part is a `finally`.
    LastFinally,
    /// There are parts.
    Parts,
    /// The first part is a target of something, of something at an index.
    TargetOf,
    TargetAt,
}

/// The part that a frame stands at.
#[derive(Clone, Copy, Debug, PartialEq, Eq)]
pub(crate) enum Place {
    /// This part, counted from 0.
    At(u32),
    /// The last part.
    Last,
    /// Behind all parts.
    Behind,
    /// Any part.
    Any,
    /// Any part but the first.
    Further,
    /// Any part, and the first also where there is none.
    OrFirst,
}

/// The values that a frame keeps.
#[derive(Clone, Copy, Debug)]
pub(crate) enum Keeps {
    /// One of each of these sorts.
    Sorts(&'static [Sort]),
    /// Those of the target, and what was read of it.
    Target,
    /// Those of the parts before the current one, with its key.
    Gathered,
    /// Those of the parts before the current one.
    Before,
    /// The value, the closure and the position of a walk, and what its method keeps besides.
    Walk,
}

/// What stands inside a frame.
#[derive(Clone, Copy, Debug, PartialEq, Eq)]
pub(crate) enum Inside {
    /// Always this.
    Always(Within),
    /// The current part, or its first part.
    Current,
    CurrentFirst,
    /// The last part, or its first part.
    Last,
    LastFirst,
    /// The value of the current part, where that is an entry.
    Gathered,
    /// The current part, which is a suffix unless it is the first.
    Suffixed,
}

/// A line of the table.
#[derive(Clone, Copy, Debug)]
pub(crate) struct Line {
    pub(crate) stand: Stand,
    pub(crate) asks: Asks,
    pub(crate) place: Place,
    pub(crate) keeps: Keeps,
    pub(crate) inside: Inside,
}

// The first flow nodes of a step's block and of its body.
const BLOCK: &[Sort] = &[Sort::FlowNode, Sort::FlowNode];

const CAUGHT: &[Sort] = &[
    Sort::FlowNode,
    Sort::FlowNode,
    Sort::UpTo(4),
    Sort::TextOrNull,
];

const RETRIED: &[Sort] = &[Sort::FlowNode, Sort::FlowNode, Sort::Count, Sort::Closure];

const OVERRIDDEN: &[Sort] = &[Sort::FlowNode, Sort::FlowNode, Sort::UpTo(2147483647)];

/// The line of a kind.
pub(crate) fn line_of(kind: FrameKind) -> Line
    ensures { IsLine kind result }
{
    match kind {
        FrameKind::Statement => Line {
            stand: Stand::Block,
            asks: Asks::Nothing,
            place: Place::Any,
            keeps: Keeps::Sorts(&[]),
            inside: Inside::Current,
        },
        FrameKind::IfTest => Line {
            stand: Stand::If,
            asks: Asks::Arm,
            place: Place::Any,
            keeps: Keeps::Sorts(&[]),
            inside: Inside::CurrentFirst,
        },
        FrameKind::WhileTest => Line {
            stand: Stand::While,
            asks: Asks::Nothing,
            place: Place::At(0),
            keeps: Keeps::Sorts(&[]),
            inside: Inside::Always(Within::Part(0)),
        },
        FrameKind::WhileBody => Line {
            stand: Stand::While,
            asks: Asks::Nothing,
            place: Place::At(1),
            keeps: Keeps::Sorts(&[]),
            inside: Inside::Always(Within::Part(1)),
        },
        FrameKind::StepsFirst => Line {
            stand: Stand::ForSteps,
            asks: Asks::Nothing,
            place: Place::At(0),
            keeps: Keeps::Sorts(&[]),
            inside: Inside::Always(Within::Part(0)),
        },
        FrameKind::StepsTest => Line {
            stand: Stand::ForSteps,
            asks: Asks::Nothing,
            place: Place::At(1),
            keeps: Keeps::Sorts(&[]),
            inside: Inside::Always(Within::Part(1)),
        },
        FrameKind::StepsBody => Line {
            stand: Stand::ForSteps,
            asks: Asks::Nothing,
            place: Place::At(3),
            keeps: Keeps::Sorts(&[]),
            inside: Inside::Always(Within::Part(3)),
        },
        FrameKind::StepsNext => Line {
            stand: Stand::ForSteps,
            asks: Asks::Nothing,
            place: Place::At(2),
            keeps: Keeps::Sorts(&[]),
            inside: Inside::Always(Within::Part(2)),
        },
        FrameKind::EachOver => Line {
            stand: Stand::ForEach,
            asks: Asks::Nothing,
            place: Place::At(0),
            keeps: Keeps::Sorts(&[]),
            inside: Inside::Always(Within::Part(0)),
        },
        FrameKind::EachBody => Line {
            stand: Stand::ForEach,
            asks: Asks::Nothing,
            place: Place::At(1),
            keeps: Keeps::Sorts(&[Sort::Any, Sort::UpTo(2147483646)]),
            inside: Inside::Always(Within::Part(1)),
        },
        FrameKind::TryBlock => Line {
            stand: Stand::Try,
            asks: Asks::Nothing,
            place: Place::At(0),
            keeps: Keeps::Sorts(&[]),
            inside: Inside::Always(Within::Part(0)),
        },
        FrameKind::TryCatch => Line {
            stand: Stand::Try,
            asks: Asks::Catch,
            place: Place::Any,
            keeps: Keeps::Sorts(&[]),
            inside: Inside::CurrentFirst,
        },
        FrameKind::FinallyAfterValue => Line {
            stand: Stand::Try,
            asks: Asks::LastFinally,
            place: Place::Last,
            keeps: Keeps::Sorts(&[Sort::Any]),
            inside: Inside::LastFirst,
        },
        FrameKind::FinallyAfterThrow => Line {
            stand: Stand::Try,
            asks: Asks::LastFinally,
            place: Place::Last,
            keeps: Keeps::Sorts(&[Sort::Throwable]),
            inside: Inside::LastFirst,
        },
        FrameKind::FinallyAfterReturn => Line {
            stand: Stand::Try,
            asks: Asks::LastFinally,
            place: Place::Last,
            keeps: Keeps::Sorts(&[Sort::Any]),
            inside: Inside::LastFirst,
        },
        FrameKind::FinallyAfterBreak => Line {
            stand: Stand::Try,
            asks: Asks::LastFinally,
            place: Place::Last,
            keeps: Keeps::Sorts(&[]),
            inside: Inside::LastFirst,
        },
        FrameKind::FinallyAfterContinue => Line {
            stand: Stand::Try,
            asks: Asks::LastFinally,
            place: Place::Last,
            keeps: Keeps::Sorts(&[]),
            inside: Inside::LastFirst,
        },
        FrameKind::DeclareValue => Line {
            stand: Stand::Declaration,
            asks: Asks::Parts,
            place: Place::At(0),
            keeps: Keeps::Sorts(&[]),
            inside: Inside::Always(Within::Part(0)),
        },
        FrameKind::TargetReceiver => Line {
            stand: Stand::Target,
            asks: Asks::TargetOf,
            place: Place::At(0),
            keeps: Keeps::Sorts(&[]),
            inside: Inside::Always(Within::Inner(0, 0)),
        },
        FrameKind::TargetIndex => Line {
            stand: Stand::Target,
            asks: Asks::TargetAt,
            place: Place::At(0),
            keeps: Keeps::Sorts(&[Sort::Any]),
            inside: Inside::Always(Within::Inner(0, 1)),
        },
        FrameKind::AssignValue => Line {
            stand: Stand::Assignment,
            asks: Asks::Nothing,
            place: Place::At(1),
            keeps: Keeps::Target,
            inside: Inside::Always(Within::Part(1)),
        },
        FrameKind::ReturnValue => Line {
            stand: Stand::Return,
            asks: Asks::Parts,
            place: Place::At(0),
            keeps: Keeps::Sorts(&[]),
            inside: Inside::Always(Within::Part(0)),
        },
        FrameKind::ThrowValue => Line {
            stand: Stand::Throw,
            asks: Asks::Nothing,
            place: Place::At(0),
            keeps: Keeps::Sorts(&[]),
            inside: Inside::Always(Within::Part(0)),
        },
        FrameKind::Gathered => Line {
            stand: Stand::Gathering,
            asks: Asks::NoPlainText,
            place: Place::Any,
            keeps: Keeps::Gathered,
            inside: Inside::Gathered,
        },
        FrameKind::GatheredKey => Line {
            stand: Stand::Gathering,
            asks: Asks::Computed,
            place: Place::Any,
            keeps: Keeps::Before,
            inside: Inside::CurrentFirst,
        },
        FrameKind::GroupValue => Line {
            stand: Stand::Group,
            asks: Asks::Nothing,
            place: Place::At(0),
            keeps: Keeps::Sorts(&[]),
            inside: Inside::Always(Within::Part(0)),
        },
        FrameKind::ChosenTest => Line {
            stand: Stand::Chosen,
            asks: Asks::Choice,
            place: Place::Any,
            keeps: Keeps::Sorts(&[]),
            inside: Inside::CurrentFirst,
        },
        FrameKind::ChainOperand => Line {
            stand: Stand::Chain,
            asks: Asks::Nothing,
            place: Place::Any,
            keeps: Keeps::Sorts(&[]),
            inside: Inside::Current,
        },
        FrameKind::JoinedFirst => Line {
            stand: Stand::Joined,
            asks: Asks::Nothing,
            place: Place::At(0),
            keeps: Keeps::Sorts(&[]),
            inside: Inside::Always(Within::Part(0)),
        },
        FrameKind::JoinedOperand => Line {
            stand: Stand::Joined,
            asks: Asks::Nothing,
            place: Place::Further,
            keeps: Keeps::Sorts(&[Sort::Any]),
            inside: Inside::CurrentFirst,
        },
        FrameKind::PrefixedOperand => Line {
            stand: Stand::Prefixed,
            asks: Asks::Nothing,
            place: Place::Last,
            keeps: Keeps::Sorts(&[]),
            inside: Inside::Last,
        },
        FrameKind::SuffixedPart => Line {
            stand: Stand::Suffixed,
            asks: Asks::Nothing,
            place: Place::OrFirst,
            keeps: Keeps::Sorts(&[]),
            inside: Inside::Suffixed,
        },
        FrameKind::IndexValue => Line {
            stand: Stand::Index,
            asks: Asks::Nothing,
            place: Place::At(0),
            keeps: Keeps::Sorts(&[Sort::Any]),
            inside: Inside::Always(Within::Part(0)),
        },
        FrameKind::CallBody => Line {
            stand: Stand::Callable,
            asks: Asks::Nothing,
            place: Place::At(0),
            keeps: Keeps::Sorts(&[]),
            inside: Inside::Always(Within::Part(0)),
        },
        FrameKind::WalkTurn => Line {
            stand: Stand::Walk,
            asks: Asks::Nothing,
            place: Place::Behind,
            keeps: Keeps::Walk,
            inside: Inside::Always(Within::Called),
        },
        FrameKind::StageBody => Line {
            stand: Stand::Call(Step::Stage),
            asks: Asks::Nothing,
            place: Place::Behind,
            keeps: Keeps::Sorts(BLOCK),
            inside: Inside::Always(Within::Called),
        },
        FrameKind::CatchErrorBody => Line {
            stand: Stand::Call(Step::CatchError),
            asks: Asks::Nothing,
            place: Place::Behind,
            keeps: Keeps::Sorts(CAUGHT),
            inside: Inside::Always(Within::Called),
        },
        FrameKind::RetryBody => Line {
            stand: Stand::Call(Step::Retry),
            asks: Asks::Nothing,
            place: Place::Behind,
            keeps: Keeps::Sorts(RETRIED),
            inside: Inside::Always(Within::Called),
        },
        FrameKind::NodeWait => Line {
            stand: Stand::Call(Step::Node),
            asks: Asks::Nothing,
            place: Place::Behind,
            keeps: Keeps::Sorts(&[Sort::Closure]),
            inside: Inside::Always(Within::Executor),
        },
        FrameKind::NodeBody => Line {
            stand: Stand::Call(Step::Node),
            asks: Asks::Nothing,
            place: Place::Behind,
            keeps: Keeps::Sorts(BLOCK),
            inside: Inside::Always(Within::Called),
        },
        FrameKind::DirBody => Line {
            stand: Stand::Call(Step::Dir),
            asks: Asks::Nothing,
            place: Place::Behind,
            keeps: Keeps::Sorts(BLOCK),
            inside: Inside::Always(Within::Called),
        },
        FrameKind::WithEnvBody => Line {
            stand: Stand::Call(Step::WithEnv),
            asks: Asks::Nothing,
            place: Place::Behind,
            keeps: Keeps::Sorts(OVERRIDDEN),
            inside: Inside::Always(Within::Called),
        },
        FrameKind::ShWait => Line {
            stand: Stand::Call(Step::Sh),
            asks: Asks::Nothing,
            place: Place::Behind,
            keeps: Keeps::Sorts(&[Sort::Flag, Sort::Flag]),
            inside: Inside::Always(Within::Task),
        },
        FrameKind::InputWait => Line {
            stand: Stand::Call(Step::Input),
            asks: Asks::Nothing,
            place: Place::Behind,
            keeps: Keeps::Sorts(&[]),
            inside: Inside::Always(Within::Person),
        },
        FrameKind::ParallelWait => Line {
            stand: Stand::Call(Step::Parallel),
            asks: Asks::Nothing,
            place: Place::Behind,
            keeps: Keeps::Sorts(&[Sort::FlowNode]),
            inside: Inside::Always(Within::Branches),
        },
        FrameKind::BranchBody => Line {
            stand: Stand::Closure,
            asks: Asks::Nothing,
            place: Place::At(0),
            keeps: Keeps::Sorts(&[Sort::FlowNode]),
            inside: Inside::Always(Within::OwnBody),
        },
    }
}
