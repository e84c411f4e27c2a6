//! The look behind a round, and the pause before the next one.
ghost use Rattle.std.specs.Prelude.{◌≡◌};
ghost use Rattle.program_lock.specs.Calls.{Steps};
ghost use Rattle.program_lock.specs.Passes.{known, IsPassOf};
ghost use Rattle.member_turns.specs.Lower.locked_build.Says.{Says};
ghost use Rattle.member_turns.specs.Lower.locked_build.declared.ask.Ask.TheVariants as asks;
ghost use Rattle.member_turns.specs.Lower.locked_build.declared.ask.Reply.TheVariants as says;
ghost use Rattle.member_turns.specs.Passing.{IsProgress};

use crate::locked_build::{Ask, Progress, Reply, SiteState};
use crate::saved_thread::SavedThread;
use jp_disk::Disk;
use program_lock::{Pass, Program};
use std::sync::Wait;
use std::thread;
use std::time::{Clock, Duration};

/// How many milliseconds pass before a round where the one before it left the build where it was.
const PAUSE: u64 = 20;

/// The reply to a look.
fn progress_of(reply: Reply) -> Progress
    requires { IsProgress reply }
    ensures { reply ≡ says.Progress result }
{
    match reply {
        Reply::Progress(come) => come,
        _ => unreachable!(),
    }
}

/// Asks how far the build has come.
pub fn look<W: Wait, D: Disk, R: SavedThread + Drop>(
    rt: &W,
    program: &Program<SiteState<D, R>>,
    pass: &mut Pass<SiteState<D, R>>,
) -> Progress
    requires belongs { IsPassOf program.now pass.old }
    ensures belongs { IsPassOf program.now pass.new }
    ensures said { Steps (λ base history ask reply new. Says R.stance base.value.build history ask reply new)
        (known pass.old) asks.Look (says.Progress result) (known pass.new) }
{
    progress_of(program.step(rt, pass, Ask::Look))
}

/// Sleeps for 20 milliseconds, where the look says the same as the one before it.
pub fn pause<W: Wait + Clock>(rt: &W, last: Option<Progress>, come: Progress) {
    if last == Some(come) {
        thread::sleep(rt, Duration::from_millis(PAUSE));
    }
}
