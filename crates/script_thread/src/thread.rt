//! A green thread that runs a script.
ghost use Rattle.std.specs.Prelude.{◌≡◌, ◌-◌, ℕ, Bool, [], ◌∷◌, List, length, map, Option, None, IfOk, true, false, is_some};
ghost use Rattle.model_run.specs.declared.event.Event.{Event};
ghost use Rattle.model_run.specs.declared.taken.Taken.TheVariants.{Accepted};
ghost use Rattle.model_run.specs.Fitting.{SharedFits};
ghost use Rattle.model_run.specs.Taking.{answered, request_of};
ghost use Rattle.model_run.specs.World.{run_limits, thread_of};
ghost use Rattle.green_threads.specs.WaitTypes.{Answer};
ghost use Rattle.green_threads.specs.declared.runner.Seated.{Seated};
ghost use Rattle.green_threads.specs.declared.runner.Stop.{Stop};
ghost use Rattle.green_threads.specs.Grouping.{ready_count};
ghost use Rattle.green_threads.specs.Threads.{marked_in, waits_for_request};
ghost use Rattle.cps_frames.specs.declared.shared.Shared.{Shared};
ghost use Rattle.cps_frames.specs.Standing.{setting_of, common_of};
ghost use Rattle.settle_laws.specs.Stances.{Stance, seated_as, script_stance, Turns};
ghost use Rattle.settle_laws.specs.Standing.{HeadsStand};
ghost use Rattle.build_requests.specs.Standings.{standing_of};
ghost use Rattle.script_thread.specs.Events.{EndsNot, seats_after, shared_after, IsBegun, first_seat};
ghost use Rattle.script_thread.specs.Marks.{GoesOnFrom, StaysBelow, marked};

use cps_frames::Shared;
use green_threads::Runner;
use std::alloc::{AllocError, Global};

/// A green thread that runs a script as the definitions say: each of its turns is one of theirs, and which threads fit a
/// shared state is kept by events.
pub trait ScriptThread: Runner<Shared = Shared> {
    /// What the definitions see of it.
    ghost stance: { Self → Stance };

    /// How many of its frames, from the outermost on, are as they were when it was marked last, or began or was restored,
    /// as far as it knows.
    ghost low: { Self → ℕ };

    /// How many of its frames, from the outermost on, are as they were when it was marked last, or began or was restored,
    /// as far as it knows. It takes no memory.
    fn low(&self) -> usize
        ensures { result ≡ low self.now };

    /// Whether it took a turn since it was marked last or was restored, or has not been marked since it began.
    ghost touched: { Self → Bool };

    /// Whether it took a turn since it was marked last or was restored, or has not been marked since it began. It takes no
    /// memory.
    fn is_touched(&self) -> bool
        ensures { result ≡ touched self.now };

    /// The thread of the script, which has not begun, behind the start node. Its number and parent are open.
    /// `AllocError` where the memory was refused.
    fn script(alloc: Global) -> Result<Self, AllocError>
        ensures begins { IfOk result (λ t. seated_as 0 None (stance t) ≡ script_stance) }
        ensures alone { IfOk result (λ t. Self.branch t ≡ false) };

    /// Its last flow node is that of its stance.
    ghost head_is: { (t : Self) → Self.head t ≡ (stance t).own.head };

    /// A seat changes the number and the parent alone.
    ghost seated_is: { (t : Self) (n : ℕ) (p : Option ℕ) → stance (Self.seated t n p) ≡ seated_as n p (stance t) };

    /// Its turns are those of the definitions.
    ghost turned: { (t : Self) (u : Shared) (x : Answer) (stopped : Stop Self) (t' : Self) (u' : Shared) → Self.turns t u x stopped t' u' → Turns stance common_of setting_of t u x stopped t' u' };

    /// What a turn leaves unmarked is as it was.
    ghost marks: { (t : Self) (u : Shared) (x : Answer) (stopped : Stop Self) (t' : Self) (u' : Shared) → Self.turns t u x stopped t' u' → GoesOnFrom u u' };

    /// A turn lets no more frames count as untouched, and those that do are the same.
    ghost stays: { (t : Self) (u : Shared) (x : Answer) (stopped : Stop Self) (t' : Self) (u' : Shared) → Self.turns t u x stopped t' u' → StaysBelow (low t) (stance t).frames (low t') (stance t').frames };

    /// A turn touches it.
    ghost touches: { (t : Self) (u : Shared) (x : Answer) (stopped : Stop Self) (t' : Self) (u' : Shared) → Self.turns t u x stopped t' u' → touched t' ≡ true };

    /// The definitions see nothing of marks.
    ghost marked_is: { (t : Self) → stance (Self.marked t) ≡ stance t };

    /// As many branches may still begin or end as flow nodes may be made.
    ghost room_is: { (u : Shared) → Self.room u ≡ run_limits.flow_nodes - length u.graph };

    /// The thread of a script fits the shared state of a build that begins.
    ghost begun_fits: { (t : Self) (u : Shared) → seated_as 0 None (stance t) ≡ script_stance → Self.branch t ≡ false → IsBegun u → Self.fits (first_seat (Self.seated t 0 None) ∷ []) u };

    /// Threads that fit do so whatever is marked.
    ghost marked_fits: { (xs : List (Seated Self)) (u : Shared) → Self.fits xs u → Self.fits (map (marked_in Self.marked) xs) (marked u) };

    /// Threads that fit have a sound shared state.
    ghost shared_fits: { (xs : List (Seated Self)) (u : Shared) → Self.fits xs u → SharedFits (setting_of u) false (common_of u) };

    /// The last flow node of each thread that fits is there.
    ghost heads_stand: { (xs : List (Seated Self)) (u : Shared) → Self.fits xs u → HeadsStand stance u.graph xs };

    /// The thread of an open request waits for the answer to a request.
    ghost awaited: { (xs : List (Seated Self)) (u : Shared) (n : ℕ) → Self.fits xs u → is_some (request_of u.requests n) ≡ true → waits_for_request (thread_of n u.requests) xs ≡ true };

    /// Where no thread is ready, an accepted event that does not end the build keeps the fit: the shared state is changed as
    /// the definitions say, and the thread of the answered request is ready with the answer.
    ghost event_fits: { (xs : List (Seated Self)) (u : Shared) (event : Event) → Self.fits xs u → ready_count xs ≡ 0 → answered (standing_of u.site u.requests u.held) event ≡ Accepted → EndsNot u event → Self.fits (seats_after event u.requests xs) (shared_after event u) };
}
