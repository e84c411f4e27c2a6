//! An answer line, heard and decided in one step.
ghost use Rattle.std.specs.Prelude.{◌≡◌, ◌<◌, ◌+◌, ◌++◌, List, length, OnOk, None, IfOk, MatchOption, true, false};
ghost use Rattle.durable_build.specs.Lower.build_core.Phases.{has_begun};
ghost use Rattle.durable_build.specs.Standing.{Kept};
ghost use Rattle.locked_build.specs.Facts.{Facts};
ghost use Rattle.locked_build.specs.Hearing.{AnswerSays, Decides, IsSkipped, noted_line, SkipSays};
ghost use Rattle.locked_build.specs.Histories.{kept_fault};
ghost use Rattle.locked_build.specs.Showing.{IsSettled};
ghost use Rattle.locked_build.specs.Steps.{OneSays};

use crate::ask::Entry;
use crate::indexed::IndexedHistory;
use crate::taking::{grant_all, note, note_want};
use agent_worker::{Heard, answer_of};
use durable_build::DurableBuild;
use durable_build::build_core::Build;
use durable_build::saved_thread::SavedThread;
use durable_build::script_thread::ScriptThread;
use journal_core::TakeFault;
use jp_disk::Disk;
use model_run::{Event, Taken};
use model_text::{Bytes, Text};
use std::alloc::{AllocError, Global};

/// The decision in a line, with the number of the first open input that has its id; none where there is no such input, or the
/// line is not of the form. `AllocError` where the memory was refused.
fn decision_in<R: ScriptThread + Drop>(
    alloc: Global,
    build: &Build<R>,
    line: &[u8],
) -> Result<Option<(u32, Event)>, AllocError>
    ensures { IfOk result (λ found. MatchOption found (IsSkipped build.now line.now) (λ decision. Decides build.now line.now decision.0 decision.1)) }
{
    let Some(answer) = answer_of(line) else {
        return Ok(None);
    };
    let Some(request) = build.input_of(answer.id) else {
        return Ok(None);
    };
    let name = Text::from_slice(alloc, answer.name)?;
    Ok(Some((
        request,
        Event::Decided {
            request,
            proceed: answer.proceed,
            name,
        },
    )))
}

/// Notes a line and the answer to its decision, where there is room for two entries.
fn note_line(
    history: &mut IndexedHistory,
    line: Bytes,
    event: Event,
    answer: Result<Taken, TakeFault>,
)
    requires { length history.old.items + 1 < history.old.capacity }
    ensures noted { history.new.items ≡ history.old.items ++ noted_line line event answer }
    ensures room { history.new.capacity ≡ history.old.capacity }
{
    match answer {
        Ok(taken) => {
            history.push(Entry::Line(line));
            note(history, event, Ok(taken));
        }
        Err(fault) => note(history, event, Err(fault)),
    }
}

/// Takes the decision in a line, and notes both.
fn decide_one<D: Disk, R: SavedThread + Drop>(
    alloc: Global,
    durable: &mut DurableBuild<D, R>,
    history: &mut IndexedHistory,
    line: Bytes,
    event: Event,
) -> Result<Taken, TakeFault>
    requires running { durable.old.stopped ≡ false }
    requires begun { has_begun durable.old.build.phase ≡ true }
    requires settled { IsSettled durable.old.build }
    requires none { kept_fault history.old.items ≡ None }
    requires room { length history.old.items < history.old.capacity }
    ensures room { OnOk result (length history.new.items < history.new.capacity) }
    ensures noted { history.new.items ≡ history.old.items ++ noted_line line event result }
    ensures says { OneSays R.stance durable.old durable.new event result }
    ensures facts { (opening : Kept D R) → Facts D.Disk R.stance opening durable.old history.old.items
        → Facts D.Disk R.stance opening durable.new history.new.items }
{
    if history.reserve(3).is_err() {
        note(history, event, Err(TakeFault::Memory));
        return Err(TakeFault::Memory);
    }
    let answer = durable.take(alloc, &event);
    note_line(history, line, event, answer);
    answer
}

/// Takes the decision in a line, and makes the grants behind it.
fn decide<D: Disk, R: SavedThread + Drop>(
    alloc: Global,
    durable: &mut DurableBuild<D, R>,
    history: &mut IndexedHistory,
    line: Bytes,
    request: u32,
    event: Event,
) -> Result<Heard, TakeFault>
    requires decides { Decides durable.old.build line request event }
    requires running { durable.old.stopped ≡ false }
    requires begun { has_begun durable.old.build.phase ≡ true }
    requires settled { IsSettled durable.old.build }
    requires none { kept_fault history.old.items ≡ None }
    requires room { length history.old.items < history.old.capacity }
    ensures says { (es : List Entry) × (history.new.items ≡ history.old.items ++ es) × AnswerSays R.stance durable.old.build line result es }
    ensures room { kept_fault history.new.items ≡ None → length history.new.items < history.new.capacity }
    ensures settled { kept_fault history.new.items ≡ None → IsSettled durable.new.build }
    ensures facts { (opening : Kept D R) → Facts D.Disk R.stance opening durable.old history.old.items
        → Facts D.Disk R.stance opening durable.new history.new.items }
{
    match decide_one(alloc, durable, history, line, event) {
        Ok(Taken::Accepted) => {
            grant_all(alloc, durable, history);
            Ok(Heard::Decided { request })
        }
        Ok(Taken::NotOpen) => Ok(Heard::Skipped),
        Ok(Taken::WrongPlace { kept: _ }) => Ok(Heard::Skipped),
        Ok(Taken::Finished) => Ok(Heard::Skipped),
        Err(fault) => Err(fault),
    }
}

/// Passes over a line.
fn skip(history: &mut IndexedHistory, line: Bytes) -> Result<Heard, TakeFault>
    requires room { length history.old.items < history.old.capacity }
    ensures says { SkipSays line result history.old.items history.new.items }
    ensures room { OnOk result (length history.new.items < history.new.capacity) }
{
    if history.reserve(2).is_err() {
        note_want(history);
        return Err(TakeFault::Memory);
    }
    history.push(Entry::Line(line));
    Ok(Heard::Skipped)
}

/// Hears an answer line: takes its decision, where it decides an open input, and makes the grants behind it.
pub fn hear<D: Disk, R: SavedThread + Drop>(
    alloc: Global,
    durable: &mut DurableBuild<D, R>,
    history: &mut IndexedHistory,
    line: Bytes,
) -> Result<Heard, TakeFault>
    requires running { durable.old.stopped ≡ false }
    requires begun { has_begun durable.old.build.phase ≡ true }
    requires settled { IsSettled durable.old.build }
    requires none { kept_fault history.old.items ≡ None }
    requires room { length history.old.items < history.old.capacity }
    ensures says { (es : List Entry) × (history.new.items ≡ history.old.items ++ es) × AnswerSays R.stance durable.old.build line result es }
    ensures room { kept_fault history.new.items ≡ None → length history.new.items < history.new.capacity }
    ensures settled { kept_fault history.new.items ≡ None → IsSettled durable.new.build }
    ensures facts { (opening : Kept D R) → Facts D.Disk R.stance opening durable.old history.old.items
        → Facts D.Disk R.stance opening durable.new history.new.items }
{
    match decision_in(alloc, durable.build(), line.as_slice()) {
        Ok(Some((request, event))) => decide(alloc, durable, history, line, request, event),
        Ok(None) => skip(history, line),
        Err(AllocError) => {
            note_want(history);
            Err(TakeFault::Memory)
        }
    }
}
