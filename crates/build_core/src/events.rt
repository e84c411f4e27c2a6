//! What an event changes.
ghost use Rattle.std.specs.Prelude.{◌≡◌, ℕ, IfOk, OnOk, OnErr, true, false};
ghost use Rattle.script_thread.specs.Names.{Accepted, GrantedEvent, OutputEvent, ExitedEvent, DecidedEvent, LogStream, OutStream, Answer, Ready};
ghost use Rattle.model_run.specs.Taking.{taken, answered};
ghost use Rattle.model_run.specs.World as W;
ghost use Rattle.green_threads.specs.Threads.{with_seat, waits_as, waits_for_request};
ghost use Rattle.script_thread.specs.Marks.{GoesOnFrom};
ghost use Rattle.cps_frames.specs.Standing.{setting_of};
ghost use Rattle.build_requests.specs.Memory.{NeedsMemory};
ghost use Rattle.build_requests.specs.Standings.{standing_of};
ghost use Rattle.build_core.specs.declared.phase.Phase.TheVariants.{Running};
ghost use Rattle.build_core.specs.Phases.{StandsIn, SoundIn, GoOn, has_begun, has_ended, standing_in};
ghost use Rattle.build_core.specs.Taking.{MayAnswer, GoesOn, GoesOnBy, StepsOn, answered_group};

use crate::ending::end_by_limit;
use crate::phase::Phase;
use crate::turns::go_on;
use build_log::LogRefusal;
use build_requests::{
    answer_first, answer_running, close, count_taken, hold_executor, keep_output, kept_len,
    take_output,
};
use cps_frames::Shared;
use green_threads::{Group, NotWaiting};
use model_run::{Answer, Event, Stream, Taken, Why};
use model_text::Text;
use model_values::LimitKind;
use script_thread::ScriptThread;
use std::alloc::AllocError;

/// What a build says to an event. `AllocError` where the memory was refused, for a grant to a build that goes on.
pub(crate) fn answer_to(phase: Phase, shared: &Shared, event: &Event) -> Result<Taken, AllocError>
    ensures taken { IfOk result (λ answer. answer ≡ taken (standing_in phase shared.now) event.now) }
    ensures memory { OnErr result ((has_begun phase ≡ true) × (has_ended phase ≡ false) × NeedsMemory (standing_in phase shared.now) event.now) }
{
    match phase {
        Phase::Ended => Ok(Taken::Finished),
        Phase::Unbegun => Ok(answer_first(event)),
        Phase::Running | Phase::Stopped => answer_running(
            shared.alloc(),
            &shared.site,
            shared.requests.as_slice(),
            shared.held.as_slice(),
            event,
        ),
    }
}

/// The change that an accepted event makes, and then all turns.
pub(crate) fn accept<R: ScriptThread + Drop>(
    shared: &mut Shared,
    group: &mut Group<R>,
    event: &Event,
) -> Result<Phase, AllocError>
    requires go { GoOn R.number R.parent R.branch R.fits 0 group.old shared.old }
    requires accepted { answered (standing_of shared.old.site shared.old.requests shared.old.held) event.now ≡ Accepted }
    ensures stands { IfOk result (λ phase. GoesOn R.stance event.now group.old shared.old phase group.new shared.new) }
    ensures steps { IfOk result (λ phase. StepsOn R.stance R.seated R.head R.turns R.room event.now group.old shared.old phase group.new shared.new) }
    ensures marks { OnOk result (GoesOnFrom shared.old shared.new) }
    ensures setting { OnOk result (setting_of shared.new ≡ setting_of shared.old) }
    ensures sound { IfOk result (λ phase. SoundIn R.number R.parent R.branch R.fits phase group.new shared.new) }
{
    match event {
        Event::Start { .. } => unreachable!(),
        Event::Granted { request, executor } => grant(shared, group, *request, *executor),
        Event::Output {
            task,
            stream,
            bytes,
            ..
        } => match stream {
            Stream::Log => log_output(shared, group, *task, bytes.as_slice()),
            Stream::Out => keep_out(shared, group, *task, bytes.as_slice()),
        },
        Event::Exited { task, code } => end_task(shared, group, *task, *code),
        Event::Lost { task, why } => end_task(shared, group, *task, lost_code(*why)),
        Event::Decided {
            request,
            proceed,
            name,
        } => decide(shared, group, *request, *proceed, name.clone()?),
    }
}

/// The code of a task that has none.
fn lost_code(why: Why) -> i32
    ensures { result ≡ W.lost_code why }
{
    match why {
        Why::Gone => -1,
        Why::NotStarted => -2,
    }
}

/// A request for an executor gets this one, which it holds.
fn grant<R: ScriptThread + Drop>(
    shared: &mut Shared,
    group: &mut Group<R>,
    request: u32,
    executor: u32,
) -> Result<Phase, AllocError>
    requires go { GoOn R.number R.parent R.branch R.fits 0 group.old shared.old }
    requires accepted { answered (standing_of shared.old.site shared.old.requests shared.old.held) (GrantedEvent request executor) ≡ Accepted }
    ensures stands { IfOk result (λ phase. GoesOn R.stance (GrantedEvent request executor) group.old shared.old phase group.new shared.new) }
    ensures steps { IfOk result (λ phase. StepsOn R.stance R.seated R.head R.turns R.room (GrantedEvent request executor) group.old shared.old phase group.new shared.new) }
    ensures marks { OnOk result (GoesOnFrom shared.old shared.new) }
    ensures setting { OnOk result (setting_of shared.new ≡ setting_of shared.old) }
    ensures sound { IfOk result (λ phase. SoundIn R.number R.parent R.branch R.fits phase group.new shared.new) }
{
    let alloc = shared.alloc();
    hold_executor(alloc, &shared.site, &mut shared.held, request, executor)?;
    shared.count = 0;
    let closed = close(alloc, &mut shared.requests, request);
    answer(shared, group, closed.thread, Answer::Granted(executor))
}

/// A task has ended with this code.
fn end_task<R: ScriptThread + Drop>(
    shared: &mut Shared,
    group: &mut Group<R>,
    task: u32,
    code: i32,
) -> Result<Phase, AllocError>
    requires go { GoOn R.number R.parent R.branch R.fits 0 group.old shared.old }
    requires accepted { answered (standing_of shared.old.site shared.old.requests shared.old.held) (ExitedEvent task code) ≡ Accepted }
    ensures stands { IfOk result (λ phase. GoesOn R.stance (ExitedEvent task code) group.old shared.old phase group.new shared.new) }
    ensures steps { IfOk result (λ phase. StepsOn R.stance R.seated R.head R.turns R.room (ExitedEvent task code) group.old shared.old phase group.new shared.new) }
    ensures marks { OnOk result (GoesOnFrom shared.old shared.new) }
    ensures setting { OnOk result (setting_of shared.new ≡ setting_of shared.old) }
    ensures sound { IfOk result (λ phase. SoundIn R.number R.parent R.branch R.fits phase group.new shared.new) }
{
    let alloc = shared.alloc();
    shared.count = 0;
    let closed = close(alloc, &mut shared.requests, task);
    let thread = closed.thread;
    let out = take_output(alloc, closed.request);
    answer(shared, group, thread, Answer::Done { code, out })
}

/// An input was decided.
fn decide<R: ScriptThread + Drop>(
    shared: &mut Shared,
    group: &mut Group<R>,
    request: u32,
    proceed: bool,
    name: Text,
) -> Result<Phase, AllocError>
    requires go { GoOn R.number R.parent R.branch R.fits 0 group.old shared.old }
    requires accepted { answered (standing_of shared.old.site shared.old.requests shared.old.held) (DecidedEvent request proceed name) ≡ Accepted }
    ensures stands { IfOk result (λ phase. GoesOn R.stance (DecidedEvent request proceed name) group.old shared.old phase group.new shared.new) }
    ensures steps { IfOk result (λ phase. StepsOn R.stance R.seated R.head R.turns R.room (DecidedEvent request proceed name) group.old shared.old phase group.new shared.new) }
    ensures marks { OnOk result (GoesOnFrom shared.old shared.new) }
    ensures setting { OnOk result (setting_of shared.new ≡ setting_of shared.old) }
    ensures sound { IfOk result (λ phase. SoundIn R.number R.parent R.branch R.fits phase group.new shared.new) }
{
    let alloc = shared.alloc();
    shared.count = 0;
    let closed = close(alloc, &mut shared.requests, request);
    answer(
        shared,
        group,
        closed.thread,
        Answer::Decided { proceed, name },
    )
}

/// A thread that waits for the answer to a request gets it, and the threads go on.
fn answer<R: ScriptThread + Drop>(
    shared: &mut Shared,
    group: &mut Group<R>,
    thread: u32,
    answer: Answer,
) -> Result<Phase, AllocError>
    requires may { MayAnswer R.number R.parent R.branch R.fits thread answer group.old shared.old }
    ensures stands { IfOk result (λ phase. (w : W.Build) → StandsIn R.stance Running (answered_group thread answer group.old) shared.old w → StandsIn R.stance phase group.new shared.new (W.settle (W.turn_bound W.run_limits) (setting_of shared.old) w)) }
    ensures steps { IfOk result (λ phase. GoesOnBy R.stance R.seated R.head R.turns R.room (answered_group thread answer group.old) shared.old phase group.new shared.new) }
    ensures marks { OnOk result (GoesOnFrom shared.old shared.new) }
    ensures setting { OnOk result (setting_of shared.new ≡ setting_of shared.old) }
    ensures sound { IfOk result (λ phase. SoundIn R.number R.parent R.branch R.fits phase group.new shared.new) }
{
    match group.answer(thread, answer) {
        Ok(()) => {}
        Err(NotWaiting) => unreachable!(),
    }
    go_on(shared, group)
}

/// A task wrote bytes to its log stream.
fn log_output<R: ScriptThread + Drop>(
    shared: &mut Shared,
    group: &mut Group<R>,
    task: u32,
    bytes: &[u8],
) -> Result<Phase, AllocError>
    requires go { GoOn R.number R.parent R.branch R.fits 0 group.old shared.old }
    requires accepted { (from : ℕ) × (answered (standing_of shared.old.site shared.old.requests shared.old.held) (OutputEvent task LogStream from bytes.now) ≡ Accepted) }
    ensures stands { IfOk result (λ phase. (from : ℕ) → GoesOn R.stance (OutputEvent task LogStream from bytes.now) group.old shared.old phase group.new shared.new) }
    ensures steps { IfOk result (λ phase. (from : ℕ) → StepsOn R.stance R.seated R.head R.turns R.room (OutputEvent task LogStream from bytes.now) group.old shared.old phase group.new shared.new) }
    ensures marks { OnOk result (GoesOnFrom shared.old shared.new) }
    ensures setting { OnOk result (setting_of shared.new ≡ setting_of shared.old) }
    ensures sound { IfOk result (λ phase. SoundIn R.number R.parent R.branch R.fits phase group.new shared.new) }
{
    let alloc = shared.alloc();
    shared.count = 0;
    match shared.log.raw(bytes) {
        Ok(()) => {}
        Err(LogRefusal::Memory) => return Err(AllocError),
        Err(LogRefusal::LogLimit) => return end_by_limit(shared, group, LimitKind::LogSize),
    }
    let more = bytes.len() as u64;
    count_taken(alloc, &mut shared.requests, task, more);
    Ok(Phase::Running)
}

/// A task wrote bytes to its output stream.
fn keep_out<R: ScriptThread + Drop>(
    shared: &mut Shared,
    group: &mut Group<R>,
    task: u32,
    bytes: &[u8],
) -> Result<Phase, AllocError>
    requires go { GoOn R.number R.parent R.branch R.fits 0 group.old shared.old }
    requires accepted { (from : ℕ) × (answered (standing_of shared.old.site shared.old.requests shared.old.held) (OutputEvent task OutStream from bytes.now) ≡ Accepted) }
    ensures stands { IfOk result (λ phase. (from : ℕ) → GoesOn R.stance (OutputEvent task OutStream from bytes.now) group.old shared.old phase group.new shared.new) }
    ensures steps { IfOk result (λ phase. (from : ℕ) → StepsOn R.stance R.seated R.head R.turns R.room (OutputEvent task OutStream from bytes.now) group.old shared.old phase group.new shared.new) }
    ensures marks { OnOk result (GoesOnFrom shared.old shared.new) }
    ensures setting { OnOk result (setting_of shared.new ≡ setting_of shared.old) }
    ensures sound { IfOk result (λ phase. SoundIn R.number R.parent R.branch R.fits phase group.new shared.new) }
{
    let alloc = shared.alloc();
    shared.count = 0;
    let kept = kept_len(&shared.requests, task);
    if kept.saturating_add(bytes.len()) > MAX_TEXT {
        return end_by_limit(shared, group, LimitKind::TextLength);
    }
    keep_output(alloc, &mut shared.requests, task, bytes)?;
    Ok(Phase::Running)
}

/// The most bytes that are kept of a task's output stream.
const MAX_TEXT: usize = 1048576;
