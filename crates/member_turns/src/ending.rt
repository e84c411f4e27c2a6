//! Whether there is another round.
ghost use Rattle.std.specs.Prelude.{◌≡◌};
ghost use Rattle.member_turns.specs.Ending.{can_read, goes_by};

use crate::locked_build::Progress;
use agent_worker::Member;

/// Whether it is an operator whose answers are neither at their end nor failed.
pub fn can_read<H, A>(member: &Member<H, A>) -> bool
    ensures { result ≡ can_read member.now }
{
    match member {
        Member::Executor { .. } => false,
        Member::Operator { ended, failed, .. } => !(*ended || *failed),
    }
}

/// Whether the members have another round behind one after which the build has come so far, where `can_answer` says whether the
/// answers of an operator among them are neither at their end nor failed.
pub fn goes_on(come: Progress, can_answer: bool) -> bool
    ensures { result ≡ goes_by come can_answer }
{
    if come.ended || come.stopped {
        return false;
    }
    come.tasks > 0 || come.waiting > 0 && can_answer
}
