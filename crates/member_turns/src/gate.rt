//! The gate of one member.
ghost use Rattle.std.specs.Prelude.{◌≡◌, [], false, length};
ghost use Rattle.member_turns.specs.Called.{calls_of};
ghost use Rattle.member_turns.specs.Saying.{WereAnswered};
ghost use Rattle.locked_build.specs.Says.{Says};
ghost use Rattle.program_lock.specs.Passes.{known, IsPassOf};

use crate::asks::{ask_answer, ask_claim, ask_halt, ask_inputs, ask_take};
use crate::calls::Calls;
use crate::place::Place;
use agent_worker::{Claim, ClaimSaid, Gate, Heard, Inputs, Said};
use journal_core::TakeFault;
use jp_disk::Disk;
use locked_build::SiteState;
use locked_build::saved_thread::SavedThread;
use model_run::{Event, Taken};
use program_lock::{Pass, Program};
use std::alloc::Global;
use std::marker::PhantomData;
use std::snapshot::Snapshot;
use std::sync::Wait;

/// The way of one member to the build behind the lock.
///
/// Each of its calls is one step of the lock, or none. What it tells contracts of events, lines and claims is read off the entries of its
/// pass. It tells its calls with their answers too, and keeps that each answer is the state's reply at a beginning of the history
/// (`answered`). Events of tasks alone are asked for: a grant is the build's own, and a decision comes by its line. One that is reported
/// is not open.
#[derive(Drop)]
pub struct SiteGate<'a, W: Wait, D: Disk, R: SavedThread + Drop, B: Place> {
    rt: &'a W,
    alloc: Global,
    program: &'a Program<SiteState<D, R>>,
    pass: Pass<SiteState<D, R>>,
    calls: Calls,
    said: Said,
    is_open: bool,
    of: PhantomData<B>,
    pub ghost belongs: { IsPassOf program.now pass },
    pub ghost placed: { pass.seat.table_id ≡ B.table },
    pub ghost shared: { (known pass).parts ≡ B.parts },
    pub ghost number: { (known pass).number ≡ B.number },
    pub ghost numbers: { (known pass).numbers ≡ B.numbers },
    pub ghost answered: { ∥ WereAnswered (λ base history ask reply new. Says R.stance base.value.build history ask reply new) B.numbers B.number B.since (known pass) (calls_of calls.called.value) ∥₁ },
}

impl<'a, W: Wait, D: Disk, R: SavedThread + Drop, B: Place> SiteGate<'a, W, D, R, B> {
    /// The gate over this pass, of which nothing was asked yet.
    pub fn new(
        rt: &'a W,
        alloc: Global,
        program: &'a Program<SiteState<D, R>>,
        pass: Pass<SiteState<D, R>>,
    ) -> SiteGate<'a, W, D, R, B>
        requires belongs { IsPassOf program.now pass }
        requires placed { pass.seat.table_id ≡ B.table }
        requires shared { (known pass).parts ≡ B.parts }
        requires number { (known pass).number ≡ B.number }
        requires numbers { (known pass).numbers ≡ B.numbers }
        requires since { length (known pass).seen ≡ B.since }
        ensures pass { result.pass ≡ pass }
        ensures calls { calls_of result.calls.called.value ≡ [] }
        ensures said { result.said ≡ Said.Nothing }
        ensures closed { result.is_open ≡ false }
    {
        SiteGate {
            rt,
            alloc,
            program,
            pass,
            calls: Calls::new(),
            said: Said::Nothing,
            is_open: false,
            of: PhantomData,
        }
    }

    /// Its pass.
    pub fn into_pass(self) -> Pass<SiteState<D, R>>
        ensures pass { result ≡ self.entry.pass }
    {
        let SiteGate { pass, .. } = self;
        pass
    }
}

impl<'a, W: Wait, D: Disk, R: SavedThread + Drop, B: Place> Gate for SiteGate<'a, W, D, R, B> {
    ghost use Rattle.program_lock.specs.Passes.{own_entries};
    ghost use Rattle.member_turns.specs.Called.{calls_of};
    ghost use Rattle.member_turns.specs.Tales.{tells_of};

    ghost tells = { λ gate. tells_of (own_entries gate.pass) (calls_of gate.calls.called.value) gate.said gate.is_open };

    fn claim(&mut self, executor: u32) -> Claim {
        let claim = ask_claim(self.rt, self.program, &mut self.pass, executor);
        self.calls.add_claim(executor, &claim);
        self.said = Said::Claim(ClaimSaid::of(&claim));
        claim
    }

    fn report(&mut self, event: Event) -> Result<Taken, TakeFault> {
        let reported = Snapshot::of(&event);
        let answer = ask_take(self.rt, self.program, &mut self.pass, event);
        self.calls.add_report(reported, answer);
        self.said = Said::Report(answer);
        answer
    }

    fn inputs(&mut self) -> Inputs {
        let inputs = ask_inputs(self.rt, self.program, &mut self.pass);
        self.calls.add_inputs(inputs);
        self.is_open = inputs.waiting > 0 || self.is_open;
        self.said = Said::Inputs(inputs);
        inputs
    }

    fn answer(&mut self, line: &[u8]) -> Result<Heard, TakeFault> {
        let answer = ask_answer(self.rt, self.alloc, self.program, &mut self.pass, line);
        self.calls.add_answer(line, answer);
        self.is_open = false;
        self.said = Said::Answer(answer);
        answer
    }

    fn halt(&mut self) {
        ask_halt(self.rt, self.program, &mut self.pass);
        self.calls.add_halt();
        self.said = Said::Halt;
    }
}
