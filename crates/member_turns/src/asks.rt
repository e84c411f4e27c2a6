//! The asks of a gate, each through a pass.
ghost use Rattle.agent_worker.specs.declared.gate.GateCall.TheVariants as gate_call;
ghost use Rattle.locked_build.specs.Says.{Says};
ghost use Rattle.program_lock.specs.Passes.{known, IsPassOf};
ghost use Rattle.locked_build.specs.declared.ask.Reply.TheVariants as says;
ghost use Rattle.std.specs.Prelude.{◌≡◌};
ghost use Rattle.member_turns.specs.Asking.{WasCalled, IsTaken, IsClaimed, IsInputs, IsHeard};
ghost use Rattle.member_turns.specs.Tales.{is_of_task};

use agent_worker::{Claim, Heard, Inputs};
use journal_core::TakeFault;
use jp_disk::Disk;
use locked_build::saved_thread::SavedThread;
use locked_build::{Ask, Reply, SiteState};
use model_run::{Event, Taken};
use model_text::Bytes;
use program_lock::{Pass, Program};
use std::alloc::{AllocError, Global};
use std::sync::Wait;

/// Whether it is an event of a task.
fn is_of_task(event: &Event) -> bool
    ensures { result ≡ is_of_task event.now }
{
    match event {
        Event::Output { .. } | Event::Exited { .. } | Event::Lost { .. } => true,
        Event::Start { .. } | Event::Granted { .. } | Event::Decided { .. } => false,
    }
}

/// The reply to a take.
fn taken_of(reply: Reply) -> Result<Taken, TakeFault>
    requires { IsTaken reply }
    ensures { reply ≡ says.Taken result }
{
    match reply {
        Reply::Taken(answer) => answer,
        _ => unreachable!(),
    }
}

/// The reply to a claim.
fn claim_of(reply: Reply) -> Claim
    requires { IsClaimed reply }
    ensures { reply ≡ says.Claimed result }
{
    match reply {
        Reply::Claimed(claim) => claim,
        _ => unreachable!(),
    }
}

/// The reply to how much is open.
fn inputs_of(reply: Reply) -> Inputs
    requires { IsInputs reply }
    ensures { reply ≡ says.Inputs result }
{
    match reply {
        Reply::Inputs(inputs) => inputs,
        _ => unreachable!(),
    }
}

/// The reply to an answer line.
fn heard_of(reply: Reply) -> Result<Heard, TakeFault>
    requires { IsHeard reply }
    ensures { reply ≡ says.Heard result }
{
    match reply {
        Reply::Heard(answer) => answer,
        _ => unreachable!(),
    }
}

/// Asks for the next task of an executor.
pub(crate) fn ask_claim<W: Wait, D: Disk, R: SavedThread + Drop>(
    rt: &W,
    program: &Program<SiteState<D, R>>,
    pass: &mut Pass<SiteState<D, R>>,
    executor: u32,
) -> Claim
    requires belongs { IsPassOf program.now pass.old }
    ensures belongs { IsPassOf program.now pass.new }
    ensures called { WasCalled (λ base history ask reply new. Says R.stance base.value.build history ask reply new) (known pass.old) (gate_call.Claim executor result) (known pass.new) }
{
    claim_of(program.step(rt, pass, Ask::Claim(executor)))
}

/// Asks to take an event, where it is one of a task. No other is asked for, and none is open.
pub(crate) fn ask_take<W: Wait, D: Disk, R: SavedThread + Drop>(
    rt: &W,
    program: &Program<SiteState<D, R>>,
    pass: &mut Pass<SiteState<D, R>>,
    event: Event,
) -> Result<Taken, TakeFault>
    requires belongs { IsPassOf program.now pass.old }
    ensures belongs { IsPassOf program.now pass.new }
    ensures called { WasCalled (λ base history ask reply new. Says R.stance base.value.build history ask reply new) (known pass.old) (gate_call.Report event result) (known pass.new) }
{
    if !is_of_task(&event) {
        return Ok(Taken::NotOpen);
    }
    taken_of(program.step(rt, pass, Ask::Take(event)))
}

/// Asks how much is open.
pub(crate) fn ask_inputs<W: Wait, D: Disk, R: SavedThread + Drop>(
    rt: &W,
    program: &Program<SiteState<D, R>>,
    pass: &mut Pass<SiteState<D, R>>,
) -> Inputs
    requires belongs { IsPassOf program.now pass.old }
    ensures belongs { IsPassOf program.now pass.new }
    ensures called { WasCalled (λ base history ask reply new. Says R.stance base.value.build history ask reply new) (known pass.old) (gate_call.Inputs result) (known pass.new) }
{
    inputs_of(program.step(rt, pass, Ask::Inputs))
}

/// Asks to decide the input that an answer line names. Where there is no memory for the line nothing is asked.
pub(crate) fn ask_answer<W: Wait, D: Disk, R: SavedThread + Drop>(
    rt: &W,
    alloc: Global,
    program: &Program<SiteState<D, R>>,
    pass: &mut Pass<SiteState<D, R>>,
    line: &[u8],
) -> Result<Heard, TakeFault>
    requires belongs { IsPassOf program.now pass.old }
    ensures belongs { IsPassOf program.now pass.new }
    ensures called { WasCalled (λ base history ask reply new. Says R.stance base.value.build history ask reply new) (known pass.old) (gate_call.Answer line.now result) (known pass.new) }
{
    match Bytes::from_slice(alloc, line) {
        Ok(line) => heard_of(program.step(rt, pass, Ask::Answer(line))),
        Err(AllocError) => Err(TakeFault::Memory),
    }
}

/// Asks to stop the build for want of memory.
pub(crate) fn ask_halt<W: Wait, D: Disk, R: SavedThread + Drop>(
    rt: &W,
    program: &Program<SiteState<D, R>>,
    pass: &mut Pass<SiteState<D, R>>,
)
    requires belongs { IsPassOf program.now pass.old }
    ensures belongs { IsPassOf program.now pass.new }
    ensures called { WasCalled (λ base history ask reply new. Says R.stance base.value.build history ask reply new) (known pass.old) gate_call.Halt (known pass.new) }
{
    let _ = program.step(rt, pass, Ask::Halt);
}
