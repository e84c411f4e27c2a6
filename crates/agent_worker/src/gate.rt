//! A gate: the way of a worker to the build.

ghost use Rattle.std.specs.Prelude.{◌≡◌, ◌<◌, ℕ, true, false, ◌||◌, nat_lt};
ghost use Rattle.model_run.specs.declared.event.Event.{Event};
ghost use Rattle.agent_worker.specs.Gate.{GateTells, claim_said, Stays, Adds, AddsTold, AddsLine, AddsClaim, AddsDecided};

use journal_core::TakeFault;
use model_run::{Event, Taken};
use model_text::Bytes;
use task_host::Order;

/// What a claim gives.
#[derive(Drop)]
pub enum Claim {
    /// The order of a task, which is the caller's from now on.
    Order(Order),
    /// There is no task for this executor now, and `busy` claims are open, at least one.
    Idle { busy: u32 },
    /// There is no task for this executor, and no claim is open.
    Rest,
    /// The build is stopped.
    Stopped,
    /// There was no memory for the order.
    Memory,
}

/// What is open.
#[derive(Clone, Copy, Debug, PartialEq, Eq)]
pub struct Inputs {
    /// The number of open inputs.
    pub waiting: u32,
    /// The number of open claims.
    pub busy: u32,
}

/// What became of an answer line.
#[derive(Clone, Copy, Debug, PartialEq, Eq)]
pub enum Heard {
    /// It decided the input with this number of its request.
    Decided { request: u32 },
    /// It is not in the form of an answer, or no open input has its id.
    Skipped,
}

/// What a claim gave, but for the order.
#[derive(Clone, Copy, Debug, PartialEq, Eq)]
pub enum ClaimSaid {
    /// The order of a task.
    Order,
    /// No task now, and so many open claims.
    Idle { busy: u32 },
    /// No task, and no open claim.
    Rest,
    /// The build is stopped.
    Stopped,
    /// There was no memory.
    Memory,
}

impl ClaimSaid {
    /// What this claim gave.
    pub fn of(claim: &Claim) -> ClaimSaid
        ensures said { result ≡ claim_said claim.now }
    {
        match claim {
            Claim::Order(_) => ClaimSaid::Order,
            Claim::Idle { busy } => ClaimSaid::Idle { busy: *busy },
            Claim::Rest => ClaimSaid::Rest,
            Claim::Stopped => ClaimSaid::Stopped,
            Claim::Memory => ClaimSaid::Memory,
        }
    }
}

/// What the latest call of a gate answered.
#[derive(Clone, Copy, Debug, PartialEq, Eq)]
pub enum Said {
    /// There was no call yet.
    Nothing,
    /// [`Gate::claim`].
    Claim(ClaimSaid),
    /// [`Gate::report`].
    Report(Result<Taken, TakeFault>),
    /// [`Gate::inputs`].
    Inputs(Inputs),
    /// [`Gate::answer`].
    Answer(Result<Heard, TakeFault>),
    /// [`Gate::halt`].
    Halt,
}

/// A call of a gate with its arguments and its answer.
#[derive(Drop)]
pub enum GateCall {
    /// [`Gate::claim`] of this executor.
    Claim {
        executor: u32,
        answer: Claim,
    },
    /// [`Gate::report`] of this event.
    Report {
        event: Event,
        answer: Result<Taken, TakeFault>,
    },
    /// [`Gate::inputs`].
    Inputs {
        answer: Inputs,
    },
    /// [`Gate::answer`] with this line.
    Answer {
        line: Bytes,
        answer: Result<Heard, TakeFault>,
    },
    /// [`Gate::halt`].
    Halt,
}

/// The way of a worker to the build. Every call may wait.
///
/// A gate tells contracts what it can: each of its lists may be untold. What it tells after a call it told before it. What
/// its latest call answered every gate tells, and whether a line may be given to it.
pub trait Gate {
    /// What it tells: of its lists of events, lines, claims and calls those that it can, and what its latest call answered.
    ghost tells: { Self → GateTells };

    /// Claims the task of this executor that comes next. That no other claim gives it, in this life, is a promise of the
    /// build behind the gate: no clause says it.
    fn claim(&mut self, executor: u32) -> Claim
        ensures said { (tells self.new).said ≡ Said.Claim (claim_said result) }
        ensures busy { (n : ℕ) → result ≡ Claim.Idle n → 0 < n }
        ensures claimed { AddsClaim executor result (tells self.old).claimed (tells self.new).claimed }
        ensures told { Stays (tells self.old).told (tells self.new).told }
        ensures lines { Stays (tells self.old).lines (tells self.new).lines }
        ensures calls { Adds (GateCall.Claim executor result) (tells self.old).calls (tells self.new).calls }
        ensures is_open { (tells self.new).is_open ≡ (tells self.old).is_open };

    /// Reports an event of a task that was claimed. `Ok(Taken::Accepted)` comes where it was taken and is durable.
    ///
    /// # Errors
    ///
    /// A [`TakeFault`] says why it was not taken, though it might have been.
    fn report(&mut self, event: Event) -> Result<Taken, TakeFault>
        ensures said { (tells self.new).said ≡ Said.Report result }
        ensures told { AddsTold event result (tells self.old).told (tells self.new).told }
        ensures claimed { Stays (tells self.old).claimed (tells self.new).claimed }
        ensures lines { Stays (tells self.old).lines (tells self.new).lines }
        ensures calls { Adds (GateCall.Report event result) (tells self.old).calls (tells self.new).calls }
        ensures is_open { (tells self.new).is_open ≡ (tells self.old).is_open };

    /// Says how many inputs and how many claims are open. That it says none of either where the build is stopped, so that
    /// the operator ends, is a promise of the build behind the gate.
    fn inputs(&mut self) -> Inputs
        ensures said { (tells self.new).said ≡ Said.Inputs result }
        ensures claimed { Stays (tells self.old).claimed (tells self.new).claimed }
        ensures told { Stays (tells self.old).told (tells self.new).told }
        ensures lines { Stays (tells self.old).lines (tells self.new).lines }
        ensures calls { Adds (GateCall.Inputs result) (tells self.old).calls (tells self.new).calls }
        ensures is_open { (tells self.new).is_open ≡ (nat_lt 0 result.waiting || (tells self.old).is_open) };

    /// Gives an answer line, without what ends it, to the lowest-numbered open input that has its id.
    ///
    /// # Errors
    ///
    /// A [`TakeFault`] says why its decision was not taken, or that the build is stopped.
    fn answer(&mut self, line: &[u8]) -> Result<Heard, TakeFault>
        requires { (tells self.old).is_open ≡ true }
        ensures said { (tells self.new).said ≡ Said.Answer result }
        ensures lines { AddsLine line.now result (tells self.old).lines (tells self.new).lines }
        ensures told { AddsDecided line.now result (tells self.old).told (tells self.new).told }
        ensures claimed { Stays (tells self.old).claimed (tells self.new).claimed }
        ensures calls { Adds (GateCall.Answer line.now result) (tells self.old).calls (tells self.new).calls }
        ensures is_open { (tells self.new).is_open ≡ false };

    /// Stops the build for want of memory, where nothing stopped it before.
    fn halt(&mut self)
        ensures said { (tells self.new).said ≡ Said.Halt }
        ensures claimed { Stays (tells self.old).claimed (tells self.new).claimed }
        ensures told { Stays (tells self.old).told (tells self.new).told }
        ensures lines { Stays (tells self.old).lines (tells self.new).lines }
        ensures calls { Adds GateCall.Halt (tells self.old).calls (tells self.new).calls }
        ensures is_open { (tells self.new).is_open ≡ (tells self.old).is_open };
}
