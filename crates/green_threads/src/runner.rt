//! A thread that is resumed with an answer, and how it stops.

ghost use Rattle.std.specs.Prelude.{◌≡◌, ℕ, List, Bool, Option, IfOk, is_some};
ghost use Rattle.green_threads.specs.WaitTypes.{Answer};
ghost use Rattle.green_threads.specs.declared.runner.Stop.{Stop};
ghost use Rattle.green_threads.specs.declared.runner.Seated.{Seated};
ghost use Rattle.green_threads.specs.Resuming.{Lowers, Begins, MayResume, Keeps, IsSameSeat};

use model_run::{Answer, Outcome, Wait};
use model_text::{Sequence, Text};
use model_values::LimitKind;
use std::alloc::AllocError;

/// A branch that is to begin.
#[derive(Drop)]
pub struct NewBranch<R> {
    /// Its name in the `parallel`.
    pub name: Text,
    pub thread: R,
}

/// The branches of a `parallel`, in their order.
pub type Branches<R> = Sequence<NewBranch<R>>;

/// How a thread stops.
#[derive(Drop)]
pub enum Stop<R> {
    /// It waits for the answer to the request of this number.
    Waits(u32),
    /// It waits for the ends of these branches, of which there is at least one.
    Forks(Branches<R>),
    /// It has ended so.
    Ended(Outcome),
    /// It has met a limit, which ends the build.
    Limit(LimitKind),
}

/// A thread in its place among others.
#[derive(Drop)]
pub struct Seated<R> {
    pub number: u32,
    /// The number of the thread that began it as a branch.
    pub parent: Option<u32>,
    pub wait: Wait,
    pub thread: R,
}

/// A thread that is resumed with an answer, over a state that all threads of a group share.
///
/// The shared state has a number, `room`, that bounds how many branches may still begin or end. So a group of such
/// threads comes to rest.
pub trait Runner {
    /// What all threads of a group read and change.
    type Shared;

    /// The number that `seat` gave the thread.
    ghost number: { Self → ℕ };

    /// The number of its parent, as `seat` gave it.
    ghost parent: { Self → Option ℕ };

    /// Whether a `parallel` began it.
    ghost branch: { Self → Bool };

    /// The number of its last flow node.
    ghost head: { Self → ℕ };

    /// The thread with this number and parent, and else as it was.
    ghost seated: { Self → ℕ → Option ℕ → Self };

    /// The thread as `mark` leaves it.
    ghost marked: { Self → Self };

    /// At least how many branches may still begin or end.
    ghost room: { Self.Shared → ℕ };

    /// Which threads may stand beside one another over a shared state.
    ghost fits: { List (Seated Self) → Self.Shared → Type 0 };

    /// What a turn with an answer comes to: thread and shared state before, the answer, how the thread stops, thread and
    /// shared state after.
    ghost turns: { Self → Self.Shared → Answer → Stop Self → Self → Self.Shared → Type 0 };

    /// The number of its last flow node.
    fn head(&self) -> u32
        ensures head { result ≡ head self.now };

    /// Gives the thread its number and its parent, and changes nothing else. A group calls it once for each new thread,
    /// before its first turn; until then both are open. There is a parent exactly where the thread is a branch.
    fn seat(&mut self, at: u32, under: Option<u32>)
        requires branch { branch self.old ≡ is_some under }
        ensures seated { self.new ≡ seated self.old at under }
        ensures number { number self.new ≡ at }
        ensures parent { parent self.new ≡ under }
        ensures branch { branch self.new ≡ branch self.old };

    /// All that stands of the thread now counts as standing from before: what is changed is what its further turns change.
    /// It takes no memory.
    fn mark(&mut self)
        ensures marked { self.new ≡ marked self.old };

    /// A marked thread is the same one, in its seat.
    ghost marked_seat: { (t : Self) → IsSameSeat number parent branch t (marked t) };

    /// Goes on with an answer up to the next stop. The thread has to be ready with this answer, among threads that fit
    /// the shared state; afterwards they still do. A turn keeps the thread's number and parent, never raises `room`, and
    /// begins branches only; `room` falls by at least 1 for each branch that it begins, and by at least 1 where a branch
    /// ends. After `AllocError` thread and shared state are open.
    fn resume(
        &mut self,
        shared: &mut Self::Shared,
        answer: Answer,
    ) -> Result<Stop<Self>, AllocError>
        requires ready { MayResume fits self.old shared.old answer }
        ensures keeps { IfOk result (λ stop. Keeps seated head fits self.old shared.old answer stop self.new shared.new) }
        ensures turned { IfOk result (λ stop. turns self.old shared.old answer stop self.new shared.new) }
        ensures lowers { IfOk result (λ stop. Lowers stop (branch self.old) (room shared.old) (room shared.new)) }
        ensures begins { IfOk result (λ stop. Begins branch stop) }
        ensures number { IfOk result (λ stop. number self.new ≡ number self.old) }
        ensures parent { IfOk result (λ stop. parent self.new ≡ parent self.old) }
        ensures branch { IfOk result (λ stop. branch self.new ≡ branch self.old) };
}
