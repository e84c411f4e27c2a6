//! A green thread that runs a script, or a branch of a `parallel`.

ghost use Rattle.std.specs.Prelude.{◌≡◌, ℕ, false, List, None, length, map, true, IfOk};
ghost use Rattle.model_run.specs.World.{outcome_of};
ghost use Rattle.cps_frames.specs.Ways.{is_block_ending};
ghost use Rattle.cps_machine.specs.Threads.{EndsAsBlock, IsStop, beginning, first_move, seen, to_begin};

use crate::machine::{Stopped, lowest, run};
use cps_frames::{Move, Shared, ThreadState};
use green_threads::{NewBranch, Runner, Stop};
use model_run::{Answer, Asked, Branch, Branches, Callee, Context, Ending, Entry, Outcome};
use model_text::{Ids, Pairs, Texts};
use model_values::{Env, Value};
use script_thread::ScriptThread;
use std::alloc::{AllocError, Global};

/// The number of a build's first flow node.
const START_NODE: u32 = 2;

/// What a thread runs that has not begun.
#[derive(Drop)]
pub enum Start {
    /// The script.
    Script,
    /// The closure of a branch.
    Branch(Callee),
}

/// A green thread that runs a script, or a branch of a `parallel`.
#[derive(Drop)]
pub struct MachineThread {
    state: ThreadState,
    /// What it runs, where it has not begun.
    start: Option<Start>,
    /// How many of its frames, from the outermost on, of those that it had then, no move has taken off since it was marked,
    /// began or was restored, or more than there are.
    low: usize,
    /// Whether it took a turn since it was marked last or was restored, or has not been marked since it began.
    touched: bool,
}

impl MachineThread {
    /// A thread that has not begun, with nothing open. Its number and its parent are those that `seat` gives it.
    pub fn begin(alloc: Global, start: Start, head: u32, context: Context) -> MachineThread
        ensures { (name : List ℕ) → seen (record { name = name; thread = result }) ≡ beginning name start head context }
    {
        MachineThread {
            state: ThreadState {
                number: 0,
                parent: None,
                head,
                context,
                calls: 0,
                stack: Vec::new(alloc),
            },
            start: Some(start),
            low: 0,
            touched: true,
        }
    }

    /// The thread that waits inside these frames.
    pub fn restore(state: ThreadState) -> MachineThread
        ensures { result ≡ record { state = state; start = None; low = length state.stack.items; touched = false } }
    {
        let low = state.stack.len();
        MachineThread {
            state,
            start: None,
            low,
            touched: false,
        }
    }

    /// What it has between two turns.
    pub fn state(&self) -> &ThreadState
        ensures { result.now ≡ self.now.state }
    {
        &self.state
    }

    /// What it does first with an answer. Behind it the thread has begun.
    fn first_move(&mut self, alloc: Global, answer: Answer) -> Move
        ensures first { result ≡ first_move self.old answer }
        ensures begun { self.new ≡ record self.old { start = None } }
    {
        match self.start.take() {
            None => Move::Ends(Ending::Answered(answer)),
            Some(Start::Script) => Move::Enter(Entry::First, 0, Env::new(alloc)),
            Some(Start::Branch(callee)) => {
                Move::Enter(Entry::Branched(self.state.head), callee.node, callee.env)
            }
        }
    }

    /// How it stops, as other threads see it.
    fn stop(&self, alloc: Global, stopped: Stopped) -> Result<Stop<MachineThread>, AllocError>
        requires { EndsAsBlock stopped }
        ensures { IfOk result (λ stop. IsStop stopped stop self.now.state.context) }
    {
        match stopped {
            Stopped::Ended(ending) => Ok(Stop::Ended(outcome_of(ending))),
            Stopped::Limit(limit) => Ok(Stop::Limit(limit)),
            Stopped::Waits(Asked::ForRequest(request)) => Ok(Stop::Waits(request)),
            Stopped::Waits(Asked::ForBranches(branches)) => {
                let threads = threads_of(alloc, &self.state.context, branches)?;
                Ok(Stop::Forks(threads))
            }
        }
    }
}

impl Runner for MachineThread {
    ghost use Rattle.settle_laws.specs.Stances.{Turns};
    ghost use Rattle.cps_frames.specs.Standing.{common_of, setting_of};
    ghost use Rattle.thread_fits.specs.Seats.{Fits, nodes_left};
    ghost use Rattle.std.specs.Prelude.{refl};
    ghost use Rattle.cps_machine.specs.Threads.{IsTurn, is_branch, marked, seated, stance_of};

    type Shared = Shared;

    ghost number = { λ t. t.state.number };

    ghost parent = { λ t. t.state.parent };

    ghost branch = { is_branch };

    ghost head = { λ t. t.state.head };

    ghost seated = { seated };

    ghost marked = { marked };

    ghost room = { nodes_left };

    ghost fits = { Fits stance_of };

    // from what it does first with the answer to where it stops, also where it stands for no thread of the definitions; and
    // as each thread does that it stands for
    ghost turns = { λ t u x stopped t' u'. IsTurn t u x stopped t' u' × Turns stance_of common_of setting_of t u x stopped t' u' };

    fn head(&self) -> u32 {
        self.state.head
    }

    fn seat(&mut self, at: u32, under: Option<u32>) {
        self.state.number = at;
        self.state.parent = under;
    }

    fn mark(&mut self) {
        self.low = self.state.stack.len();
        self.touched = false;
    }

    ghost marked_seat = { λ t. record { number_same = refl; parent_same = refl; branch_same = refl } };

    fn resume(
        &mut self,
        shared: &mut Shared,
        answer: Answer,
    ) -> Result<Stop<MachineThread>, AllocError> {
        let alloc = shared.alloc();
        let first = self.first_move(alloc, answer);
        self.touched = true;
        self.low = lowest(&self.state, self.low);
        let stopped = run(&mut self.state, &mut self.low, shared, first)?;
        let stop = self.stop(alloc, stopped)?;
        Ok(stop)
    }
}

impl ScriptThread for MachineThread {
    ghost use Rattle.std.specs.Prelude.{map, refl};
    ghost use Rattle.green_threads.specs.Threads.{marked_in};
    ghost use Rattle.model_run.proofs.RequestLaws.{asks_go_on};
    ghost use Rattle.cps_frames.specs.Standing.{common_of};
    ghost use Rattle.thread_fits.specs.Seats.{Fits};
    ghost use Rattle.thread_fits.proofs.BeginLaws.{script_fits};
    ghost use Rattle.thread_fits.proofs.EventLaws.{awaited_there, event_fits};
    ghost use Rattle.thread_fits.proofs.MarkLaws.{marked_fits, marked_threads_fit};
    ghost use Rattle.thread_fits.proofs.SeatLaws.{heads_stand};
    ghost use Rattle.cps_machine.specs.Threads.{marked, seated, stance_of};

    ghost stance = { stance_of };

    ghost low = { λ t. t.low };

    fn low(&self) -> usize {
        self.low
    }

    ghost touched = { λ t. t.touched };

    fn is_touched(&self) -> bool {
        self.touched
    }

    fn script(alloc: Global) -> Result<MachineThread, AllocError> {
        let outside = Context {
            held: Ids::new(alloc),
            folders: Texts::new(alloc),
            env: Pairs::new(alloc),
        };
        Ok(MachineThread::begin(alloc, Start::Script, START_NODE, outside))
    }

    ghost head_is = { λ t. refl };

    ghost seated_is = { λ t n p. refl };

    ghost turned = { λ t u x stopped t' u' turns. turns.1 };

    ghost marks = { λ t u x stopped t' u' turns. record { cells = turns.0.runs.onward.beside.heap; nodes = turns.0.runs.leaves.follows.later.nodes; log = turns.0.runs.leaves.follows.log; binding = turns.0.runs.leaves.follows.binding; requests = asks_go_on (common_of u) (common_of u') turns.0.runs.leaves.follows.asks } };

    ghost stays = { λ t u x stopped t' u' turns. turns.0.stays };

    ghost touches = { λ t u x stopped t' u' turns. turns.0.touched };

    ghost marked_is = { λ t. refl };

    ghost room_is = { λ u. refl };

    ghost begun_fits = { λ t u e alone begun. script_fits stance_of (seated t 0 None) u e begun };

    ghost marked_fits = { λ xs u fit. marked_fits stance_of (map (marked_in marked) xs) u (marked_threads_fit stance_of marked xs u fit) };

    ghost shared_fits = { λ xs u fit. fit.shared };

    ghost heads_stand = { heads_stand stance_of };

    ghost awaited = { awaited_there stance_of };

    ghost event_fits = { event_fits stance_of };
}

/// What a thread has ended with: a value, or what it has thrown. Behind a `break` or a `continue` that is in no loop it is null.
fn outcome_of(ending: Ending) -> Outcome
    requires { is_block_ending ending ≡ true }
    ensures { result ≡ outcome_of ending }
{
    match ending {
        Ending::Thrown(cell) => Outcome::Thrown(cell),
        Ending::Normal(value) | Ending::Returned(value) => Outcome::Value(value),
        Ending::Broke | Ending::Continued => Outcome::Value(Value::Null),
        Ending::Declared(_) | Ending::Answered(_) => unreachable!(),
    }
}

/// The same context once more. `AllocError` where the memory was refused.
pub(crate) fn copied(context: &Context) -> Result<Context, AllocError>
    ensures { IfOk result (λ copy. copy ≡ context.now) }
{
    let copy = context.clone()?;
    Ok(copy)
}

/// The threads of branches, in their order.
fn threads_of(
    alloc: Global,
    context: &Context,
    branches: Branches,
) -> Result<green_threads::Branches<MachineThread>, AllocError>
    ensures { IfOk result (λ threads. map seen threads ≡ map (to_begin context.now) branches) }
{
    let mut threads = green_threads::Branches::new(alloc);
    for branch in branches.into_vec() {
        let Branch {
            name,
            closure,
            env,
            head,
        } = branch;
        let start = Start::Branch(Callee { node: closure, env });
        let thread = MachineThread::begin(alloc, start, head, copied(context)?);
        threads.push(NewBranch { name, thread })?;
    }
    Ok(threads)
}
