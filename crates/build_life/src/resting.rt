//! Why a life rests.
ghost use Rattle.std.specs.Prelude.{◌≡◌};
ghost use Rattle.build_life.specs.Ending.{any_failed, has_failed, rest_of};

use agent_worker::Member;
use member_turns::locked_build::Progress;

/// Why a life rests.
#[derive(Clone, Copy, Debug, PartialEq, Eq)]
pub enum Rest {
    /// The build has ended.
    Ended,
    /// The build waits, and nobody is there who answers: no input is open, or the answers were read to their end.
    Waits,
    /// An input is open, and the answers could not be read.
    AnswersFailed,
}

/// Whether it is an operator whose answers could not be read.
fn has_failed<H, A>(member: &Member<H, A>) -> bool
    ensures { result ≡ has_failed member.now }
{
    match member {
        Member::Executor { .. } => false,
        Member::Operator { failed, .. } => *failed,
    }
}

/// Whether the answers of an operator among them could not be read.
fn any_failed<H, A>(members: &[Member<H, A>]) -> bool
    ensures { result ≡ any_failed members.now }
{
    for member in members {
        if has_failed(member) {
            return true;
        }
    }
    false
}

/// Why a build rests that has come so far, where no fault stopped it and no other round follows.
pub fn rest_of<H, A>(come: Progress, members: &[Member<H, A>]) -> Rest
    ensures { result ≡ rest_of come members.now }
{
    if come.ended {
        return Rest::Ended;
    }
    if come.waiting > 0 && any_failed(members) {
        return Rest::AnswersFailed;
    }
    Rest::Waits
}
