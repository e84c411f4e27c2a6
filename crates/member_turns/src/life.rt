//! A life of members who work in threads.
ghost use Rattle.std.specs.Prelude.{◌≡◌, ◌≤◌, ◌<◌, [], length, map, IfOk, IfErr, Some};
ghost use Rattle.program_lock.specs.Passes.{known, IsPassOf};
ghost use Rattle.program_lock.specs.Views.{all_parts};
ghost use Rattle.member_turns.specs.Lower.locked_build.Says.{Says};
ghost use Rattle.member_turns.specs.Lives.{Life};
ghost use Rattle.member_turns.specs.Passing.{TakesRounds};
ghost use Rattle.member_turns.specs.Turns.{DidTurn};
ghost use Rattle.member_turns.specs.Ready.{AreReady};

use crate::ending::goes_on;
use crate::locked_build::{Progress, SiteState};
use crate::looking::{look, pause};
use crate::round::take_round_in_threads;
use crate::saved_thread::SavedThread;
use crate::seat::Seat;
use crate::seating::{can_answer, seated, unseat};
use agent_worker::Member;
use jp_disk::Disk;
use jp_io::Source;
use program_lock::{Memory, Pass, Program};
use std::alloc::{AllocGlobal, Global};
use std::sync::Wait;
use std::thread::Threads;
use std::time::Clock;
use task_host::Host;

/// Gives the members of these seats rounds over an open lock, until there is no other.
fn take_rounds<
    'a,
    T: Threads + Wait + Sync + Clock + AllocGlobal,
    D: Disk + Send,
    R: SavedThread + Drop + Send,
    H: Host + Send,
    A: Source + Send,
>(
    rt: &T,
    threads: usize,
    program: &Program<SiteState<D, R>>,
    pass: &mut Pass<SiteState<D, R>>,
    seats: &mut [Seat<'a, T, D, R, H, A>],
    looks: u32,
) -> Result<Progress, Memory>
    requires belongs { IsPassOf program.now pass.old }
    requires ready { AreReady pass.old.seat.table_id looks seats.old }
    requires few { length seats.old ≤ 127 }
    requires whole { (known pass.old).parts ≡ all_parts }
    ensures belongs { IsPassOf program.now pass.new }
    ensures whole { (known pass.new).parts ≡ all_parts }
    ensures len { length seats.new ≡ length seats.old }
    ensures rounds { TakesRounds (DidTurn H.Host A.Source looks)
        (λ base history ask reply new. Says R.stance base.value.build history ask reply new)
        (map (λ seat. seat.member) seats.old) (map (λ seat. seat.member) seats.new) (known pass.old) (known pass.new) result }
{
    let mut last = None;
    for _ in rt.forever() {
        take_round_in_threads(rt, threads, pass, seats, looks)?;
        let come = look(rt, program, pass);
        if !goes_on(come, can_answer(seats)) {
            return Ok(come);
        }
        pause(rt, last, come);
        last = Some(come);
    }
    unreachable!()
}

/// Gives the members their rounds over an open lock.
fn live_over<
    'a,
    T: Threads + Wait + Sync + Clock + AllocGlobal,
    D: Disk + Send,
    R: SavedThread + Drop + Send,
    H: Host + Send,
    A: Source + Send,
>(
    rt: &'a T,
    alloc: Global,
    threads: usize,
    program: &'a Program<SiteState<D, R>>,
    pass: &mut Pass<SiteState<D, R>>,
    members: &mut Vec<Member<H, A>>,
    looks: u32,
) -> Result<Progress, Memory>
    requires looks { 0 < looks }
    requires belongs { IsPassOf program.now pass.old }
    requires few { length members.old.items ≤ 127 }
    requires whole { (known pass.old).parts ≡ all_parts }
    ensures belongs { IsPassOf program.now pass.new }
    ensures whole { (known pass.new).parts ≡ all_parts }
    ensures rounds { TakesRounds (DidTurn H.Host A.Source looks)
        (λ base history ask reply new. Says R.stance base.value.build history ask reply new)
        members.old.items members.new.items (known pass.old) (known pass.new) result }
{
    match seated(rt, alloc, program, members, looks) {
        Ok(mut seats) => {
            let how = take_rounds(rt, threads, program, pass, seats.as_mut_slice(), looks);
            unseat(seats, members);
            how
        }
        Err(memory) => Err(memory),
    }
}

/// Gives the members their rounds over an open lock, and closes it.
fn live_in<
    T: Threads + Wait + Sync + Clock + AllocGlobal,
    D: Disk + Send,
    R: SavedThread + Drop + Send,
    H: Host + Send,
    A: Source + Send,
>(
    rt: &T,
    alloc: Global,
    threads: usize,
    program: Program<SiteState<D, R>>,
    pass: Pass<SiteState<D, R>>,
    members: &mut Vec<Member<H, A>>,
    looks: u32,
) -> (SiteState<D, R>, Result<Progress, Memory>)
    requires looks { 0 < looks }
    requires belongs { IsPassOf program pass }
    requires few { length members.old.items ≤ 127 }
    requires whole { (known pass).parts ≡ all_parts }
    requires first { (known pass).seen ≡ [] }
    ensures lives { (start : _) → (known pass).base ≡ Some start → Life H.Host A.Source looks
        (λ base history ask reply new. Says R.stance base.value.build history ask reply new)
        start result.0.base members.old.items members.new.items result.0.history.items result.1 }
{
    let mut pass = pass;
    let how = live_over(rt, alloc, threads, &program, &mut pass, members, looks);
    match program.close(pass) {
        Ok(state) => (state, how),
        Err(_out) => unreachable!(),
    }
}

/// The life of a build with these members, at most 127: opens the program lock over the state, gives the members one round of turns
/// after the other, asks behind each round how far the build has come, and closes the lock when nobody can go on.
///
/// As many members of a round work at once as `threads` says, each in a thread of its own as far as threads can be made. With 1
/// thread, or none, the members have their turns one after the other, in their order (no clause speaks of the threads, nor of this
/// order). The members stay in their order.
///
/// `looks`, at least 1, is as for [`agent_worker::work`]. It may wait for ever.
///
/// # Errors
///
/// `Memory` comes only for want of memory: with the state alone, before anything was done; or beside it, before a round, in which
/// then no member has had a turn, which no clause says.
pub fn live_in_threads<
    T: Threads + Wait + Sync + Clock + AllocGlobal,
    D: Disk + Send,
    R: SavedThread + Drop + Send,
    H: Host + Send,
    A: Source + Send,
>(
    rt: &T,
    alloc: Global,
    threads: usize,
    state: SiteState<D, R>,
    members: &mut Vec<Member<H, A>>,
    looks: u32,
) -> Result<(SiteState<D, R>, Result<Progress, Memory>), (Memory, SiteState<D, R>)>
    requires looks { 0 < looks }
    requires few { length members.old.items ≤ 127 }
    requires fresh { state.history.items ≡ [] }
    ensures lives { IfOk result (λ r. Life H.Host A.Source looks
        (λ base history ask reply new. Says R.stance base.value.build history ask reply new)
        state.base r.0.base members.old.items members.new.items r.0.history.items r.1) }
    ensures back { IfErr result (λ e. (e.1 ≡ state) × (members.new.items ≡ members.old.items)) }
{
    match Program::open(alloc, state) {
        Ok((program, pass)) => Ok(live_in(rt, alloc, threads, program, pass, members, looks)),
        Err((memory, state)) => Err((memory, state)),
    }
}
