//! The calls of a gate, kept for contracts alone.
ghost use Rattle.std.specs.Prelude.{◌≡◌, ◌++◌, ◌∷◌, []};
ghost use Rattle.agent_worker.specs.declared.gate.GateCall.TheVariants as gate_call;
ghost use Rattle.member_turns.specs.Called.{bytes_of, calls_of};

use agent_worker::{Claim, Heard, Inputs};
use journal_core::TakeFault;
use model_run::{Event, Taken};
use std::mem;
use std::snapshot::Snapshot;

/// The bytes of a line.
#[derive(Drop)]
pub enum Spelled {
    /// None.
    Nothing,
    /// One more, behind those before it.
    Byte { before: Snapshot<Spelled>, byte: u8 },
}

/// Calls of a gate with their answers, each behind those before it.
#[derive(Drop)]
pub enum Called {
    /// None.
    Nothing,
    /// `claim` of this executor.
    Claim {
        before: Snapshot<Called>,
        executor: u32,
        answer: Snapshot<Claim>,
    },
    /// `report` of this event.
    Report {
        before: Snapshot<Called>,
        event: Snapshot<Event>,
        answer: Result<Taken, TakeFault>,
    },
    /// `inputs`.
    Inputs {
        before: Snapshot<Called>,
        answer: Inputs,
    },
    /// `answer` of this line.
    Answer {
        before: Snapshot<Called>,
        line: Snapshot<Spelled>,
        answer: Result<Heard, TakeFault>,
    },
    /// `halt`.
    Halt {
        before: Snapshot<Called>,
    },
}

/// The calls of a gate so far, with their answers. It has no bytes: contracts alone read it.
#[derive(Drop)]
pub struct Calls {
    called: Snapshot<Called>,
}

/// The bytes of this line.
fn spell(line: &[u8]) -> Snapshot<Spelled>
    ensures { bytes_of result.value ≡ line.now }
{
    let mut so_far = Snapshot::of(&Spelled::Nothing);
    for byte in line {
        so_far = Snapshot::of(&Spelled::Byte {
            before: so_far,
            byte: *byte,
        });
    }
    so_far
}

impl Calls {
    /// No call.
    pub fn new() -> Calls
        ensures { calls_of result.called.value ≡ [] }
    {
        Calls {
            called: Snapshot::of(&Called::Nothing),
        }
    }

    /// Takes the calls so far out.
    fn take(&mut self) -> Snapshot<Called>
        ensures { result.value ≡ self.old.called.value }
    {
        mem::replace(&mut self.called, Snapshot::of(&Called::Nothing))
    }

    /// One more: a claim of this executor.
    pub fn add_claim(&mut self, executor: u32, answer: &Claim)
        ensures { calls_of self.new.called.value ≡ calls_of self.old.called.value ++ gate_call.Claim executor answer.now ∷ [] }
    {
        let before = self.take();
        self.called = Snapshot::of(&Called::Claim {
            before,
            executor,
            answer: Snapshot::of(answer),
        });
    }

    /// One more: a report of this event.
    pub fn add_report(&mut self, event: Snapshot<Event>, answer: Result<Taken, TakeFault>)
        ensures { calls_of self.new.called.value ≡ calls_of self.old.called.value ++ gate_call.Report event.value answer ∷ [] }
    {
        let before = self.take();
        self.called = Snapshot::of(&Called::Report {
            before,
            event,
            answer,
        });
    }

    /// One more: what is open.
    pub fn add_inputs(&mut self, answer: Inputs)
        ensures { calls_of self.new.called.value ≡ calls_of self.old.called.value ++ gate_call.Inputs answer ∷ [] }
    {
        let before = self.take();
        self.called = Snapshot::of(&Called::Inputs { before, answer });
    }

    /// One more: an answer line.
    pub fn add_answer(&mut self, line: &[u8], answer: Result<Heard, TakeFault>)
        ensures { calls_of self.new.called.value ≡ calls_of self.old.called.value ++ gate_call.Answer line.now answer ∷ [] }
    {
        let before = self.take();
        self.called = Snapshot::of(&Called::Answer {
            before,
            line: spell(line),
            answer,
        });
    }

    /// One more: a halt.
    pub fn add_halt(&mut self)
        ensures { calls_of self.new.called.value ≡ calls_of self.old.called.value ++ gate_call.Halt ∷ [] }
    {
        let before = self.take();
        self.called = Snapshot::of(&Called::Halt { before });
    }
}
