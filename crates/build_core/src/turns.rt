//! The threads of a build go on.
ghost use Rattle.std.specs.Prelude.{◌≡◌, ◌≤◌, ◌+◌, IfOk, OnOk, true};
ghost use Rattle.model_run.specs.World as W;
ghost use Rattle.model_run.specs.declared.event.Event.TheVariants.{Start as StartEvent};
ghost use Rattle.green_threads.specs.WaitTypes.{Answer, Ready};
ghost use Rattle.green_threads.specs.Threads.{with_seat, waits_as, waits_for_request};
ghost use Rattle.script_thread.specs.Marks.{GoesOnFrom};
ghost use Rattle.cps_frames.specs.Standing.{setting_of};
ghost use Rattle.build_core.specs.declared.phase.Phase.TheVariants.{Unbegun, Running};
ghost use Rattle.build_core.specs.Phases.{StandsIn, SoundIn, GoOn, IsEmpty};
ghost use Rattle.build_core.specs.Taking.{GoesOnBy};

use crate::ending::{end_by_limit, end_script};
use crate::phase::Phase;
use cps_frames::Shared;
use green_threads::{Group, Settled, SpawnRefusal};
use model_run::Answer;
use script_thread::ScriptThread;
use std::alloc::AllocError;

/// The build begins: its first line is logged, and its script's thread goes on.
pub(crate) fn begin<R: ScriptThread + Drop>(
    shared: &mut Shared,
    group: &mut Group<R>,
) -> Result<Phase, AllocError>
    requires empty { IsEmpty group.old shared.old }
    ensures stands { IfOk result (λ phase. StandsIn R.stance phase group.new shared.new (W.settle (W.turn_bound W.run_limits) (setting_of shared.old) W.begun)) }
    ensures marks { OnOk result (GoesOnFrom shared.old shared.new) }
    ensures setting { OnOk result (setting_of shared.new ≡ setting_of shared.old) }
    ensures sound { IfOk result (λ phase. SoundIn R.number R.parent R.branch R.fits phase group.new shared.new) }
{
    // code that is read tells that it is a script's, as the thread asks
    let _nodes = shared.code.len();
    shared.log.end_line(b"[Pipeline] Start of Pipeline")?;
    let thread = R::script(shared.alloc())?;
    match group.spawn(thread) {
        Ok(_) => {}
        Err(SpawnRefusal::Memory) => return Err(AllocError),
        Err(SpawnRefusal::ThreadLimit) => unreachable!(),
    }
    go_on(shared, group)
}

/// The threads go on until each waits or the build is over, which then ends.
pub(crate) fn go_on<R: ScriptThread + Drop>(
    shared: &mut Shared,
    group: &mut Group<R>,
) -> Result<Phase, AllocError>
    requires go { GoOn R.number R.parent R.branch R.fits 1 group.old shared.old }
    ensures stands { IfOk result (λ phase. (w : W.Build) → StandsIn R.stance Running group.old shared.old w → StandsIn R.stance phase group.new shared.new (W.settle (W.turn_bound W.run_limits) (setting_of shared.old) w)) }
    ensures steps { IfOk result (λ phase. GoesOnBy R.stance R.seated R.head R.turns R.room group.old shared.old phase group.new shared.new) }
    ensures marks { OnOk result (GoesOnFrom shared.old shared.new) }
    ensures setting { OnOk result (setting_of shared.new ≡ setting_of shared.old) }
    ensures sound { IfOk result (λ phase. SoundIn R.number R.parent R.branch R.fits phase group.new shared.new) }
{
    match group.settle(shared)? {
        Settled::AllWait => Ok(Phase::Running),
        Settled::Ended(outcome) => Ok(end_script(shared, group, outcome)?),
        Settled::Limit(kind) => Ok(end_by_limit(shared, group, kind)?),
    }
}
