//! The numbers of the kinds of frames, as images have them.

ghost use Rattle.std.specs.Prelude.{◌≡◌, slice_get};
ghost use Rattle.frame_rows.specs.Kinds.{kind_number, kinds};

use model_run::FrameKind;

/// All kinds, in the order of their numbers.
const KINDS: [FrameKind; 46] = [
    FrameKind::Statement,
    FrameKind::IfTest,
    FrameKind::WhileTest,
    FrameKind::WhileBody,
    FrameKind::StepsFirst,
    FrameKind::StepsTest,
    FrameKind::StepsBody,
    FrameKind::StepsNext,
    FrameKind::EachOver,
    FrameKind::EachBody,
    FrameKind::TryBlock,
    FrameKind::TryCatch,
    FrameKind::FinallyAfterValue,
    FrameKind::FinallyAfterThrow,
    FrameKind::FinallyAfterReturn,
    FrameKind::FinallyAfterBreak,
    FrameKind::FinallyAfterContinue,
    FrameKind::DeclareValue,
    FrameKind::TargetReceiver,
    FrameKind::TargetIndex,
    FrameKind::AssignValue,
    FrameKind::ReturnValue,
    FrameKind::ThrowValue,
    FrameKind::Gathered,
    FrameKind::GatheredKey,
    FrameKind::GroupValue,
    FrameKind::ChosenTest,
    FrameKind::ChainOperand,
    FrameKind::JoinedFirst,
    FrameKind::JoinedOperand,
    FrameKind::PrefixedOperand,
    FrameKind::SuffixedPart,
    FrameKind::IndexValue,
    FrameKind::CallBody,
    FrameKind::WalkTurn,
    FrameKind::StageBody,
    FrameKind::CatchErrorBody,
    FrameKind::RetryBody,
    FrameKind::NodeWait,
    FrameKind::NodeBody,
    FrameKind::DirBody,
    FrameKind::WithEnvBody,
    FrameKind::ShWait,
    FrameKind::InputWait,
    FrameKind::ParallelWait,
    FrameKind::BranchBody,
];

/// The kind with this number, and `None` exactly where none has it. The 46 kinds are numbered from 0 in the order in which
/// [`FrameKind`] lists them.
pub fn frame_kind(number: u8) -> Option<FrameKind>
    ensures { result ≡ slice_get kinds number }
{
    kind_at(&KINDS, number as usize)
}

/// The kind at this place.
fn kind_at(kinds: &[FrameKind], at: usize) -> Option<FrameKind>
    ensures { result ≡ slice_get kinds.now at }
{
    match kinds.get(at) {
        Some(kind) => Some(*kind),
        None => None,
    }
}

/// The number of a kind in an image.
pub fn kind_number(kind: FrameKind) -> u8
    ensures { result ≡ kind_number kind }
{
    kind as u8
}
