//! A life with hosts.
ghost use Rattle.std.specs.Prelude.{◌≡◌, ◌<◌, ◌≤◌, ℕ, Option, List, [], false, true, Result, Ok, Err, IfOk, IfErr, MatchResult, length};
ghost use Rattle.device_faults.specs.Faults.{CountsFault};
ghost use Rattle.build_store.specs.Lower.build_core.Phases.{has_begun};
ghost use Rattle.model_run.specs.declared.event.Event.{Event as AnEvent};
ghost use Rattle.model_run.specs.State.{Setting};
ghost use Rattle.build_store.specs.Lives.{Lasts, TellsFault};
ghost use Rattle.program_lock.specs.declared.program.Memory.{Memory as NoMemory};
ghost use Rattle.member_turns.specs.Lower.locked_build.declared.ask.Progress.{Progress as Come};
ghost use Rattle.build_store.specs.Lower.durable_build.Standing.{Kept, Keeps};
ghost use Rattle.member_turns.specs.Lower.locked_build.declared.ask.Entry.{Entry};
ghost use Rattle.member_turns.specs.Lower.locked_build.Facts.{Facts};
ghost use Rattle.member_turns.specs.Lower.locked_build.Grants.{OpenRefuses};
ghost use Rattle.member_turns.specs.Lower.locked_build.Histories.{kept_fault};
ghost use Rattle.member_turns.specs.Lower.locked_build.Says.{Says};
ghost use Rattle.member_turns.specs.Lives.{Life};
ghost use Rattle.build_life.specs.Ending.{any_failed, ended_as};
ghost use Rattle.build_life.specs.Lives.{KeepsOn, LivesOn, OpeningBreaks};
ghost use Rattle.build_life.specs.Serving.{AreServed};

use crate::resting::{Rest, rest_of};
use agent_worker::Member;
use build_store::durable_build::{DurableBuild, TakeFault};
use build_store::saved_thread::SavedThread;
use jp_disk::Disk;
use jp_io::Source;
use member_turns::live_in_threads;
use member_turns::locked_build::{Progress, SiteState};
use program_lock::Memory;
use std::alloc::{AllocGlobal, Global};
use std::sync::Wait;
use std::thread::Threads;
use std::time::Clock;
use task_host::Host;

/// A life that has come to its end.
#[derive(Drop)]
pub struct Lived<D: Disk, R: SavedThread + Drop> {
    /// The state that it leaves. Where it broke off it is open what its build is.
    pub site: SiteState<D, R>,
    /// Why it rests, or the fault that stopped it.
    pub ended: Result<Rest, TakeFault>,
}

/// Goes on with a saved build that has begun: makes the grants that a stop left out, and lets the members work on it until it has
/// ended or nobody can go on.
///
/// The members have rounds of turns, each member one turn a round. As many members work at once as `threads` says, each in a thread
/// of its own as far as threads can be made; with 1 they work one after the other, in their order (no clause speaks of the threads,
/// nor of this order). Another round follows while the build has neither ended nor been stopped by a fault, and a task is open, or an
/// input is open while an operator's answers are neither at their end nor failed. So a life rests where the build has ended (`Ended`); where no task is open, and no input is open or all
/// answers were read to their end (`Waits`); and where no task is open, and an input whose answers could not be read
/// (`AnswersFailed`).
///
/// An open input can be answered by an operator among the members alone; without one a life rests though an input is open.
/// There are at most 127 members. `looks`, at least 1, is as for [`agent_worker::work`]. It may wait for ever.
///
/// # Errors
///
/// A fault that stops the life is told beside the state, as [`DurableBuild::take`] answers it: `Disk` only where the disk's count
/// of faults rose, which it does at no other fault; `Full` with the journal's length in bytes and what the record that is due for
/// an event would have added to it, together more than 1,073,741,824: over a store of one build, of the event that came next; `Memory`
/// where memory was refused. `Stopped` does not come. Where one of the grants that a stop left out is refused so, the disk alone
/// is handed back, and the members are as they were.
pub fn go_on<
    W: Threads + Wait + Sync + Clock + AllocGlobal,
    D: Disk + Send,
    R: SavedThread + Drop + Send,
    H: Host + Send,
    A: Source + Send,
>(
    rt: &W,
    alloc: Global,
    threads: usize,
    durable: DurableBuild<D, R>,
    members: &mut Vec<Member<H, A>>,
    looks: u32,
) -> Result<Lived<D, R>, (TakeFault, D)>
    requires looks { 0 < looks }
    requires few { length members.old.items ≤ 127 }
    requires running { durable.stopped ≡ false }
    requires begun { has_begun durable.build.phase ≡ true }
    ensures lives { IfOk result (λ l. LivesOn D.Disk R.stance
        H.Host A.Source looks
        (λ base. base.value) (λ base history ask reply new. Says R.stance base.value.build history ask reply new)
        durable members.old.items members.new.items l.site.base l.site.history.items l.site.durable l.ended) }
    ensures refused { IfErr result (λ e. (made : List Entry) × (now : Kept D R) × OpenRefuses R.stance durable now made e.0
        × Facts D.Disk R.stance durable now made × (e.1 ≡ now.journal.disk)
        × TellsFault R.stance now e.0) }
    ensures breaks { IfErr result (λ e. (setting : Setting) (entry : Option (List ℕ)) (origin : D) (before events : List AnEvent)
        → Lasts D.Disk R.stance setting entry origin before events durable
        → OpeningBreaks D.Disk R.stance setting entry origin before events e.0 e.1) }
    ensures back { IfErr result (λ e. members.new.items ≡ members.old.items) }
    ensures len { length members.new.items ≡ length members.old.items }
    ensures served { IfOk result (λ l. AreServed H.Host A.Source members.old.items members.new.items) }
    ensures keeps { IfOk result (λ l. IfOk l.ended (λ rest. (payloads : List (List ℕ)) → Keeps D.Disk R.stance durable payloads
        → ∥ KeepsOn D.Disk R.stance durable l.site.durable payloads ∥₁)) }
    ensures faults { IfOk result (λ l. IfErr l.ended (λ fault. ∥ TellsFault R.stance l.site.durable fault ∥₁)) }
    ensures failed { IfOk result (λ l. l.ended ≡ Ok Rest.AnswersFailed → any_failed members.new.items ≡ true) }
    ensures disk { MatchResult result
        (λ l. CountsFault (D.faults durable.journal.disk) (D.faults l.site.durable.journal.disk) (l.ended ≡ Err TakeFault.Disk))
        (λ e. CountsFault (D.faults durable.journal.disk) (D.faults e.1) (e.0 ≡ TakeFault.Disk)) }
{
    match SiteState::open(alloc, durable) {
        Ok(site) => Ok(live_on(rt, alloc, threads, site, members, looks)),
        Err(refused) => Err(refused),
    }
}

/// Lets the members work on a state that was opened, and says how that ended.
fn live_on<
    W: Threads + Wait + Sync + Clock + AllocGlobal,
    D: Disk + Send,
    R: SavedThread + Drop + Send,
    H: Host + Send,
    A: Source + Send,
>(
    rt: &W,
    alloc: Global,
    threads: usize,
    site: SiteState<D, R>,
    members: &mut Vec<Member<H, A>>,
    looks: u32,
) -> Lived<D, R>
    requires looks { 0 < looks }
    requires few { length members.old.items ≤ 127 }
    requires fresh { site.history.items ≡ [] }
    ensures lives { (how : Result Come NoMemory) × Life H.Host A.Source looks
        (λ base history ask reply new. Says R.stance base.value.build history ask reply new) site.base result.site.base members.old.items members.new.items result.site.history.items how
        × (result.ended ≡ ended_as (kept_fault result.site.history.items) how members.new.items) }
{
    match live_in_threads(rt, alloc, threads, site, members, looks) {
        Ok((site, how)) => Lived {
            ended: ended_of(&site, how, members),
            site,
        },
        Err((Memory, site)) => Lived {
            site,
            ended: Err(TakeFault::Memory),
        },
    }
}

/// How a life has ended: by the fault that is kept, for want of memory, or at rest.
fn ended_of<D: Disk, R: SavedThread + Drop, H, A>(
    site: &SiteState<D, R>,
    how: Result<Progress, Memory>,
    members: &[Member<H, A>],
) -> Result<Rest, TakeFault>
    ensures { result ≡ ended_as (kept_fault site.now.history.items) how members.now }
{
    if let Some(fault) = site.fault() {
        return Err(fault);
    }
    match how {
        Ok(come) => Ok(rest_of(come, members)),
        Err(Memory) => Err(TakeFault::Memory),
    }
}
