//! A round in threads.
ghost use Rattle.std.specs.Prelude.{◌≡◌, ◌≤◌, ◌^◌, Some, None, length, map, IfOk, IfErr, MatchOption};
ghost use Rattle.std.specs.List.{AllZip, AllByRecursion as AllAre};
ghost use Rattle.program_lock.specs.Calls.{Splits, Joins};
ghost use Rattle.program_lock.specs.Passes.{known};
ghost use Rattle.program_lock.specs.Views.{all_parts};
ghost use Rattle.member_turns.specs.Lower.locked_build.Says.{Says};
ghost use Rattle.member_turns.specs.Passing.{TakesRound};
ghost use Rattle.member_turns.specs.Turns.{DidTurn};
ghost use Rattle.member_turns.specs.Ready.{AreReady};
ghost use Rattle.member_turns.specs.Seats.{HandsOut, TakesIn};
ghost use Rattle.member_turns.specs.Serving.{Serves};

use crate::locked_build::SiteState;
use crate::saved_thread::SavedThread;
use crate::seat::Seat;
use jp_disk::Disk;
use jp_io::Source;
use program_lock::{Memory, Pass, work_in_threads};
use std::alloc::AllocGlobal;
use std::sync::Wait;
use std::thread::Threads;
use std::time::Clock;
use task_host::Host;

/// Splits a pass off for a seat.
fn give<'a, W: Wait, D: Disk, R: SavedThread + Drop, H, A>(
    pass: &mut Pass<SiteState<D, R>>,
    seat: &mut Seat<'a, W, D, R, H, A>,
) -> Result<(), Memory>
    requires over { seat.old.program.now.table.shared.table_id ≡ pass.old.seat.table_id }
    ensures same { pass.new.seat.table_id ≡ pass.old.seat.table_id }
    ensures kept { (seat.new.member ≡ seat.old.member) × (seat.new.looks ≡ seat.old.looks) × (seat.new.program ≡ seat.old.program) }
    ensures given { IfOk result (λ _. (p : _) × (seat.new.pass ≡ Some p) × Splits (known pass.old) (known pass.new) (known p)) }
    ensures refused { IfErr result (λ _. (known pass.new ≡ known pass.old) × (seat.new.pass ≡ seat.old.pass)) }
{
    match seat.program.split(seat.rt, pass) {
        Ok(own) => {
            seat.pass = Some(own);
            Ok(())
        }
        Err(memory) => Err(memory),
    }
}

/// Takes in the pass of a seat, where it has one.
fn take_back<'a, W: Wait, D: Disk, R: SavedThread + Drop, H, A>(
    pass: &mut Pass<SiteState<D, R>>,
    seat: &mut Seat<'a, W, D, R, H, A>,
)
    requires over { seat.old.program.now.table.shared.table_id ≡ pass.old.seat.table_id }
    ensures same { pass.new.seat.table_id ≡ pass.old.seat.table_id }
    ensures kept { (seat.new.member ≡ seat.old.member) × (seat.new.looks ≡ seat.old.looks) × (seat.new.program ≡ seat.old.program) }
    ensures vacant { seat.new.pass ≡ None }
    ensures taken { MatchOption seat.old.pass (known pass.new ≡ known pass.old) (λ p. Joins (known pass.old) (known p) (known pass.new)) }
{
    match seat.pass.take() {
        Some(own) => seat.program.join(seat.rt, pass, own),
        None => {}
    }
}

/// Splits a pass off for each seat. Where one is refused, the seats before it have theirs.
fn hand_out<'a, W: Wait, D: Disk, R: SavedThread + Drop, H, A>(
    pass: &mut Pass<SiteState<D, R>>,
    seats: &mut [Seat<'a, W, D, R, H, A>],
) -> Result<(), Memory>
    requires over { AllAre (λ program. program.now.table.shared.table_id ≡ pass.old.seat.table_id) (map (λ seat. seat.program) seats.old) }
    requires enough { 2 ^ length seats.old ≤ (known pass.old).parts }
    ensures same { pass.new.seat.table_id ≡ pass.old.seat.table_id }
    ensures members { map (λ seat. seat.member) seats.new ≡ map (λ seat. seat.member) seats.old }
    ensures looks { map (λ seat. seat.looks) seats.new ≡ map (λ seat. seat.looks) seats.old }
    ensures programs { map (λ seat. seat.program) seats.new ≡ map (λ seat. seat.program) seats.old }
    ensures out { HandsOut (map (λ seat. seat.pass) seats.old) (map (λ seat. seat.pass) seats.new) (known pass.old) (known pass.new) result }
{
    for seat in seats.iter_mut() {
        match give(pass, seat) {
            Ok(()) => {}
            Err(memory) => return Err(memory),
        }
    }
    Ok(())
}

/// Takes in the passes of all seats, in their order.
fn take_in<'a, W: Wait, D: Disk, R: SavedThread + Drop, H, A>(
    pass: &mut Pass<SiteState<D, R>>,
    seats: &mut [Seat<'a, W, D, R, H, A>],
)
    requires over { AllAre (λ program. program.now.table.shared.table_id ≡ pass.old.seat.table_id) (map (λ seat. seat.program) seats.old) }
    ensures same { pass.new.seat.table_id ≡ pass.old.seat.table_id }
    ensures members { map (λ seat. seat.member) seats.new ≡ map (λ seat. seat.member) seats.old }
    ensures looks { map (λ seat. seat.looks) seats.new ≡ map (λ seat. seat.looks) seats.old }
    ensures programs { map (λ seat. seat.program) seats.new ≡ map (λ seat. seat.program) seats.old }
    ensures vacant { AllAre (λ own. own ≡ None) (map (λ seat. seat.pass) seats.new) }
    ensures taken { TakesIn (map (λ seat. seat.pass) seats.old) (known pass.old) (known pass.new) }
{
    for seat in seats.iter_mut() {
        take_back(pass, seat);
    }
}

/// All members with a pass work, at most so many at once.
fn work_all<
    'a,
    T: Threads + Wait + Sync + Clock + AllocGlobal,
    D: Disk + Send,
    R: SavedThread + Drop + Send,
    H: Host + Send,
    A: Source + Send,
>(rt: &T, threads: usize, seats: &mut [Seat<'a, T, D, R, H, A>])
    ensures work { AllZip (λ a b. (b.program ≡ a.program) × (b.looks ≡ a.looks)
        × Serves (DidTurn H.Host A.Source a.looks) (λ base history ask reply new. Says R.stance base.value.build history ask reply new) a.pass b.pass a.member b.member) seats.old seats.new }
{
    work_in_threads(rt, threads.max(1), seats);
}

/// Gives each of the members of these seats a turn. As many work at once as `threads` says, each in a thread of its own as far as
/// threads can be made; with 1, or none, and where no thread can be made, they have their turns one after the other, in their order
/// (no clause speaks of the threads, nor of this order).
///
/// Each member has a pass of its own, which is split off before and taken in behind. `TakesRound` says what each turn was,
/// and which entries of them the pass has. It has all parts of the right to close before and behind it.
///
/// # Errors
///
/// `Memory` comes for want of a further pass; then no member has had a turn (which no clause says).
pub fn take_round_in_threads<
    'a,
    T: Threads + Wait + Sync + Clock + AllocGlobal,
    D: Disk + Send,
    R: SavedThread + Drop + Send,
    H: Host + Send,
    A: Source + Send,
>(
    rt: &T,
    threads: usize,
    pass: &mut Pass<SiteState<D, R>>,
    seats: &mut [Seat<'a, T, D, R, H, A>],
    looks: u32,
) -> Result<(), Memory>
    requires ready { AreReady pass.old.seat.table_id looks seats.old }
    requires few { length seats.old ≤ 127 }
    requires whole { (known pass.old).parts ≡ all_parts }
    ensures same { pass.new.seat.table_id ≡ pass.old.seat.table_id }
    ensures whole { (known pass.new).parts ≡ all_parts }
    ensures ready { AreReady pass.new.seat.table_id looks seats.new }
    ensures len { length seats.new ≡ length seats.old }
    ensures round { TakesRound (DidTurn H.Host A.Source looks)
        (λ base history ask reply new. Says R.stance base.value.build history ask reply new)
        (map (λ seat. seat.member) seats.old) (map (λ seat. seat.member) seats.new) (known pass.old) (known pass.new) result }
{
    match hand_out(pass, seats) {
        Ok(()) => {
            work_all(rt, threads, seats);
            take_in(pass, seats);
            Ok(())
        }
        Err(memory) => {
            take_in(pass, seats);
            Err(memory)
        }
    }
}
