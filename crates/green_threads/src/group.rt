ghost use Rattle.std.specs.Prelude.{◌≡◌, ◌+◌, ◌≤◌, ◌<◌, ◌++◌, ◌↔◌, ℕ, suc, [], ◌∷◌, Some, None, IfOk, IfErr, OnOk, OnErr, IsTrue, Err, length, slice_get, slice_set, true, false};
ghost use Rattle.model_run.specs.World.{run_limits};
ghost use Rattle.green_threads.specs.WaitTypes.{Answer, Ready, Begin, BranchesWait};
ghost use Rattle.green_threads.specs.declared.runner.Seated.{Seated};
ghost use Rattle.green_threads.specs.declared.settled.Settled.{Settled};
ghost use Rattle.green_threads.specs.declared.refusal.SpawnRefusal.{SpawnRefusal};
ghost use Rattle.green_threads.specs.Threads.{waits_for_request, is_request, with_seat, waits_as, marked_group, ended_branch, new_joins, new_seats};
ghost use Rattle.green_threads.specs.Resuming.{AllBranches, MayResume};
ghost use Rattle.green_threads.specs.Grouping.{Grouped};
ghost use Rattle.green_threads.specs.Order.{Settles, turns_left};
ghost use Rattle.green_threads.specs.Places.{ready_place, place_of};
ghost use Rattle.green_threads.specs.Turns.{Advances, Resumed, rules};

use crate::joins::joined;
use crate::refusal::{MAX_THREADS, NotWaiting, SpawnRefusal};
use crate::runner::{Branches, Runner, Seated, Stop};
use crate::settled::Settled;
use model_run::{Answer, Join, Joins, Outcome, Wait};
use model_values::LimitKind;
use std::alloc::{AllocError, Global};
use std::marker::Model;
use std::mem;

/// Green threads by rising numbers.
///
/// A contract sees a group as the list of its threads, with the number that the next new one gets. Where a call asks
/// for a group that is `Grouped` (numbers rise and are below the next one, each thread has the number and the parent
/// under which it stands, a parent exactly where it is a branch, and waits for fewer than 2^32 branches), `new`,
/// `spawn`, `answer`, `clear`, `restore` of such threads, and `settle` give one.
#[derive(Drop)]
pub struct Group<R> {
    seats: Vec<Seated<R>>,
    next: u32,
    alloc: Global,
}

impl<R> Model for Group<R> {
    ghost use Rattle.green_threads.specs.Threads.{Threads};

    ghost Value = { Threads R };

    ghost view = { λ g. record { seats = g.seats.items; next = g.next } };
}

impl<R> Group<R> {
    /// A group without threads. The first one gets the number 0.
    pub fn new(alloc: Global) -> Group<R>
        ensures { result ≡ record { seats = []; next = 0 } }
    {
        Group {
            seats: Vec::new(alloc),
            next: 0,
            alloc,
        }
    }

    /// The living threads, by rising numbers. After an end or a limit they are those that lived then, the one that
    /// ended or met the limit among them.
    pub fn threads(&self) -> &[Seated<R>]
        ensures { result.now ≡ self.now.seats }
    {
        self.seats.as_slice()
    }

    /// The number that the next new thread gets.
    pub fn next(&self) -> u32
        ensures { result ≡ self.now.next }
    {
        self.next
    }

    /// Takes all threads away, as at the end of a build. The number that the next one gets stays.
    pub fn clear(&mut self)
    where
        R: Drop,
        ensures { self.new ≡ record { seats = []; next = self.old.next } }
    {
        self.seats = Vec::new(self.alloc);
    }

    /// The place of the lowest-numbered thread that is ready.
    fn first_ready(&self) -> Option<usize>
        ensures { result ≡ ready_place self.now.seats }
    {
        for place in 0..self.seats.len() {
            if let Wait::Ready(_) = self.seats[place].wait {
                return Some(place);
            }
        }
        None
    }

    /// The place of the thread of this number.
    fn find(&self, number: u32) -> Option<usize>
        ensures { result ≡ place_of number self.now.seats }
    {
        for place in 0..self.seats.len() {
            if self.seats[place].number == number {
                return Some(place);
            }
        }
        None
    }
}

impl<R: Runner + Drop> Group<R> {
    /// Takes in a new thread that is no branch, ready to begin, and answers its number. It has no parent. The next
    /// number has to be below 4294967295.
    ///
    /// `ThreadLimit` comes exactly where 256 threads live, or more; `Memory` only where fewer do. The group is as it was
    /// then.
    pub fn spawn(&mut self, thread: R) -> Result<u32, SpawnRefusal>
        requires grouped { Grouped R.number R.parent R.branch 0 self.old.seats self.old.next }
        requires numbers { self.old.next < 4294967295 }
        requires alone { R.branch thread ≡ false }
        ensures spawned { IfOk result (λ n. (n ≡ self.old.next) × (length self.old.seats < run_limits.threads) × (self.new ≡ record { seats = self.old.seats ++ record { number = n; parent = None; wait = Ready Begin; thread = R.seated thread n None } ∷ []; next = suc n })) }
        ensures refused { IfErr result (λ e. (self.new ≡ self.old) × (e ≡ SpawnRefusal.ThreadLimit → run_limits.threads ≤ length self.old.seats)) }
        ensures limit { run_limits.threads ≤ length self.old.seats → result ≡ Err SpawnRefusal.ThreadLimit }
        ensures grouped { OnOk result (Grouped R.number R.parent R.branch 0 self.new.seats self.new.next) }
    {
        if self.seats.len() >= MAX_THREADS {
            return Err(SpawnRefusal::ThreadLimit);
        }
        let number = self.next;
        let mut thread = thread;
        thread.seat(number, None);
        let seat = Seated {
            number,
            parent: None,
            wait: Wait::Ready(Answer::Begin),
            thread,
        };
        match self.seats.push(seat) {
            Ok(()) => {}
            Err(_) => return Err(SpawnRefusal::Memory),
        }
        self.next = number + 1;
        Ok(number)
    }

    /// Gives the thread of this number the answer to its request, so that it is ready. It takes no memory.
    ///
    /// `NotWaiting` comes exactly where no thread of this number waits for the answer to a request; the group is as it
    /// was then.
    pub fn answer(&mut self, thread: u32, answer: Answer) -> Result<(), NotWaiting>
        requires grouped { Grouped R.number R.parent R.branch 0 self.old.seats self.old.next }
        ensures answered { OnOk result ((waits_for_request thread self.old.seats ≡ true) × (self.new ≡ record { seats = with_seat (waits_as (Ready answer)) thread self.old.seats; next = self.old.next })) }
        ensures refused { OnErr result ((waits_for_request thread self.old.seats ≡ false) × (self.new ≡ self.old)) }
        ensures grouped { Grouped R.number R.parent R.branch 0 self.new.seats self.new.next }
    {
        let Some(place) = self.find(thread) else {
            return Err(NotWaiting);
        };
        if !is_request(&self.seats[place].wait) {
            return Err(NotWaiting);
        }
        self.wait_at(place, Wait::Ready(answer));
        Ok(())
    }

    /// Marks each thread. It takes no memory.
    pub fn mark(&mut self)
        ensures { self.new ≡ marked_group R.marked self.old }
    {
        for seat in self.seats.iter_mut() {
            seat.thread.mark();
        }
    }

    /// The group of just these threads, under no limit; a new one gets the number `next`. It takes no memory.
    pub fn restore(alloc: Global, threads: Vec<Seated<R>>, next: u32) -> Group<R>
        requires grouped { Grouped R.number R.parent R.branch 0 threads.items next }
        ensures restored { result ≡ record { seats = threads.items; next = next } }
    {
        Group {
            seats: threads,
            next,
            alloc,
        }
    }

    /// Resumes the lowest-numbered ready thread, until none is ready, the thread without a parent has ended, or a limit
    /// was met. The threads have to fit the shared state, and the next number and `room` together to be at most
    /// 4294967295.
    ///
    /// - A thread that forks waits for its branches. They get the next numbers, are ready to begin, and stand behind all
    ///   others. Where more than 256 threads would live then, none of them is taken in, and the answer is
    ///   `Limit(GreenThreads)`.
    /// - A branch that has ended is taken out, and its parent has its end; where it was the last one, the parent is ready
    ///   with the ends of all, in the order of the branches (Jenkins User Handbook, Pipeline Steps: `parallel`).
    /// - Where the answer is `AllWait` the threads still fit. Where it is another, the thread that ended or met the limit
    ///   stands among the others as it is then.
    ///
    /// After `AllocError` the group and the shared state are open.
    pub fn settle(&mut self, shared: &mut R::Shared) -> Result<Settled, AllocError>
        requires grouped { Grouped R.number R.parent R.branch 0 self.old.seats self.old.next }
        requires bounded { self.old.next + R.room shared.old ≤ 4294967295 }
        requires fits { R.fits self.old.seats shared.old }
        ensures order { IfOk result (λ out. Settles run_limits.threads R.seated R.head R.turns (turns_left R.room self.old shared.old) self.old shared.old out self.new shared.new) }
        ensures fits { IfOk result (λ out. out ≡ Settled.AllWait → R.fits self.new.seats shared.new) }
        ensures bounded { OnOk result (self.new.next + R.room shared.new ≤ self.old.next + R.room shared.old) }
        ensures grouped { OnOk result (Grouped R.number R.parent R.branch 0 self.new.seats self.new.next) }
    {
        while let Some(place) = self.first_ready() {
            match self.advance(place, shared)? {
                None => {}
                Some(settled) => return Ok(settled),
            }
        }
        Ok(Settled::AllWait)
    }

    /// One turn of the ready thread at this place. None where the others go on after it.
    fn advance(
        &mut self,
        place: usize,
        shared: &mut R::Shared,
    ) -> Result<Option<Settled>, AllocError>
        requires ready { Some place ≡ ready_place self.old.seats }
        requires grouped { Grouped R.number R.parent R.branch 0 self.old.seats self.old.next }
        requires bounded { self.old.next + R.room shared.old ≤ 4294967295 }
        requires fits { R.fits self.old.seats shared.old }
        ensures { IfOk result (λ out. Advances run_limits.threads (rules R.number R.parent R.branch R.head R.seated R.room R.fits R.turns) self.old shared.old out self.new shared.new) }
    {
        let stop = resume_seat(&mut self.seats[place], shared)?;
        match stop {
            Stop::Waits(request) => {
                self.wait_at(place, Wait::Request(request));
                Ok(None)
            }
            Stop::Forks(branches) => {
                if self.exceeds_limit(branches.len()) {
                    return Ok(Some(Settled::Limit(LimitKind::GreenThreads)));
                }
                self.fork(place, branches)?;
                Ok(None)
            }
            Stop::Ended(outcome) => match self.seats[place].parent {
                None => Ok(Some(Settled::Ended(outcome))),
                Some(parent) => {
                    self.end_branch(place, parent, outcome)?;
                    Ok(None)
                }
            },
            Stop::Limit(kind) => Ok(Some(Settled::Limit(kind))),
        }
    }

    /// Whether more threads would live with these branches than may live at once.
    fn exceeds_limit(&self, branches: usize) -> bool
        ensures { IsTrue result ↔ (run_limits.threads < length self.now.seats + branches) }
    {
        branches > MAX_THREADS || self.seats.len() > MAX_THREADS - branches
    }

    /// The thread at this place waits for this.
    fn wait_at(&mut self, place: usize, wait: Wait)
        requires { place < length self.old.seats }
        ensures { (x : Seated R) → slice_get self.old.seats place ≡ Some x → self.new ≡ record { seats = slice_set self.old.seats place (waits_as wait x); next = self.old.next } }
    {
        self.seats[place].wait = wait;
    }

    /// The thread at this place waits for these new branches, which get the next numbers.
    fn fork(&mut self, place: usize, branches: Branches<R>) -> Result<(), AllocError>
        requires place { place < length self.old.seats }
        requires numbers { self.old.next + length branches ≤ 4294967295 }
        requires branches { AllBranches R.branch branches }
        ensures { OnOk result ((x : Seated R) → slice_get self.old.seats place ≡ Some x → (self.new ≡ record { seats = slice_set self.old.seats place (waits_as (BranchesWait (new_joins self.old.next branches)) x) ++ new_seats R.seated x.number self.old.next branches; next = self.old.next + length branches }) × Grouped R.number R.parent R.branch self.old.next (new_seats R.seated x.number self.old.next branches) self.new.next) }
    {
        let parent = self.seats[place].number;
        let mut joins = Joins::new(self.alloc);
        for branch in branches.into_vec() {
            let mut thread = branch.thread;
            thread.seat(self.next, Some(parent));
            joins.push(Join {
                name: branch.name,
                thread: self.next,
                ended: None,
            })?;
            self.seats.push(Seated {
                number: self.next,
                parent: Some(parent),
                wait: Wait::Ready(Answer::Begin),
                thread,
            })?;
            self.next += 1;
        }
        self.wait_at(place, Wait::Branches(joins));
        Ok(())
    }

    /// The branch at this place has ended so: it is taken out, and its parent has its end.
    fn end_branch(&mut self, place: usize, parent: u32, outcome: Outcome) -> Result<(), AllocError>
        requires place { place < length self.old.seats }
        requires grouped { Grouped R.number R.parent R.branch 0 self.old.seats self.old.next }
        ensures { OnOk result ((x : Seated R) → slice_get self.old.seats place ≡ Some x → self.new ≡ record { seats = ended_branch x.number (R.head x.thread) outcome (Some parent) self.old.seats; next = self.old.next }) }
    {
        let ended = self.seats.remove(place);
        let node = ended.thread.head();
        let Some(at) = self.find(parent) else {
            return Ok(());
        };
        // What stands there in between is seen by nobody.
        let wait = mem::replace(&mut self.seats[at].wait, Wait::Request(0));
        let wait = joined(self.alloc, wait, ended.number, node, outcome)?;
        self.wait_at(at, wait);
        Ok(())
    }
}

/// Whether a thread that waits so waits for the answer to a request.
fn is_request(wait: &Wait) -> bool
    ensures { result ≡ is_request wait.now }
{
    match wait {
        Wait::Request(_) => true,
        _ => false,
    }
}

/// The answer of a thread that is ready.
fn answer_of(wait: Wait) -> Answer
    requires { (a : Answer) × (wait ≡ Ready a) }
    ensures { (a : Answer) → wait ≡ Ready a → result ≡ a }
{
    match wait {
        Wait::Ready(answer) => answer,
        Wait::Request(_) | Wait::Branches(_) => unreachable!(),
    }
}

/// Resumes a ready thread with its answer. What it waits for afterwards is set where it goes on.
fn resume_seat<R: Runner>(
    seat: &mut Seated<R>,
    shared: &mut R::Shared,
) -> Result<Stop<R>, AllocError>
    requires ready { (a : Answer) × (seat.old.wait ≡ Ready a) × MayResume R.fits seat.old.thread shared.old a }
    ensures { IfOk result (λ stop. Resumed (rules R.number R.parent R.branch R.head R.seated R.room R.fits R.turns) seat.old shared.old stop seat.new shared.new) }
{
    let answer = answer_of(mem::replace(&mut seat.wait, Wait::Request(0)));
    seat.thread.resume(shared, answer)
}
