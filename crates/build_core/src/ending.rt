//! How a build ends.
ghost use Rattle.std.specs.Prelude.{◌≡◌, ◌≤◌, [], ◌∷◌, ◌++◌, length, OnOk, IfOk, slice_get, codes, unwrap_or, false};
ghost use Rattle.std.specs.Option.{option_copied};
ghost use Rattle.model_values.specs.Limits.{limit_line};
ghost use Rattle.model_values.specs.Throwables.{thrown_text};
ghost use Rattle.model_run.specs.declared.result.BuildResult.TheVariants.{Failure};
ghost use Rattle.model_run.specs.Fitting.{most_nodes};
ghost use Rattle.model_run.specs.Results.{ended_log, uncaught_lines, worse};
ghost use Rattle.model_run.specs.LogText.{lines};
ghost use Rattle.model_run.specs.World as W;
ghost use Rattle.script_thread.specs.Marks.{GoesOnFrom};
ghost use Rattle.cps_frames.specs.Standing.{setting_of, common_of};
ghost use Rattle.settle_laws.specs.Standing.{causes, end_result, heads, first_head};
ghost use Rattle.build_core.specs.Endings.{IsOver, lines_of};

use crate::phase::Phase;
use build_log::Log;
use cell_heap::Heap;
use cps_frames::Shared;
use green_threads::{Group, Seated};
use model_run::{BuildResult, HeldExecutors, OpenRequests, Outcome};
use model_text::{Ids, Text};
use model_values::{Cell, Class, LimitKind};
use script_thread::ScriptThread;
use std::alloc::{AllocError, Global};

/// The script's thread has ended so, and with it the build.
pub(crate) fn end_script<R: ScriptThread + Drop>(
    shared: &mut Shared,
    group: &mut Group<R>,
    outcome: Outcome,
) -> Result<Phase, AllocError>
    requires few { length shared.old.graph ≤ most_nodes false }
    ensures over { IfOk result (λ phase. IsOver phase group.old shared.old (W.finished (first_head R.stance group.old.seats ∷ []) (causes outcome shared.old.heap.cells) (end_result outcome shared.old.result shared.old.heap.cells) (common_of shared.old)) group.new shared.new) }
    ensures marks { OnOk result (GoesOnFrom shared.old shared.new) }
{
    let alloc = shared.alloc();
    let heads = first_head(alloc, group.threads())?;
    let cause = cause_of(alloc, &shared.heap, outcome)?;
    let final_result = result_of(&shared.heap, shared.result, outcome);
    finish(shared, heads, cause, final_result)?;
    group.clear();
    Ok(Phase::Ended)
}

/// A limit was met, which ends the build: the last flow nodes of all threads are the parents of its end node.
pub(crate) fn end_by_limit<R: ScriptThread + Drop>(
    shared: &mut Shared,
    group: &mut Group<R>,
    kind: LimitKind,
) -> Result<Phase, AllocError>
    requires few { length shared.old.graph ≤ most_nodes false }
    ensures over { IfOk result (λ phase. IsOver phase group.old shared.old (W.finished (heads R.stance group.old.seats) (limit_line kind ∷ []) (worse shared.old.result Failure) (common_of shared.old)) group.new shared.new) }
    ensures marks { OnOk result (GoesOnFrom shared.old shared.new) }
{
    let alloc = shared.alloc();
    let heads = heads_of(alloc, group.threads())?;
    let cause = limit_text(alloc, kind)?;
    let final_result = shared.result.worse(BuildResult::Failure);
    finish(shared, heads, Some(cause), final_result)?;
    group.clear();
    Ok(Phase::Ended)
}

/// The build ends: the end node behind these, the last lines with this cause, and this result. No request is open and no
/// executor is held from then on.
fn finish(
    shared: &mut Shared,
    heads: Ids,
    cause: Option<Text>,
    final_result: BuildResult,
) -> Result<(), AllocError>
    requires few { length shared.old.graph ≤ most_nodes false }
    ensures finished { OnOk result (common_of shared.new ≡ W.finished heads (lines_of cause) final_result (common_of shared.old)) }
    ensures setting { OnOk result (setting_of shared.new ≡ setting_of shared.old) }
    ensures marks { OnOk result (GoesOnFrom shared.old shared.new) }
{
    let alloc = shared.alloc();
    shared.graph.end(heads)?;
    end_log(alloc, &mut shared.log, &cause, final_result)?;
    shared.result = final_result;
    shared.requests = OpenRequests::new(alloc);
    shared.held = HeldExecutors::new(alloc);
    Ok(())
}

/// The last lines of the log, with this cause and this result.
fn end_log(
    alloc: Global,
    log: &mut Log,
    cause: &Option<Text>,
    final_result: BuildResult,
) -> Result<(), AllocError>
    ensures { OnOk result (log.new ≡ ended_log (lines_of cause.now) final_result log.old) }
{
    log.end_line(b"[Pipeline] End of Pipeline")?;
    put_cause(log, cause)?;
    let mut last = Text::from_slice(alloc, b"Finished: ")?;
    last.append(final_result.name().as_bytes())?;
    log.end_line(last.as_slice())?;
    Ok(())
}

/// The line of a cause, where there is one.
fn put_cause(log: &mut Log, cause: &Option<Text>) -> Result<(), AllocError>
    ensures { OnOk result (log.new ≡ lines (lines_of cause.now) log.old) }
{
    match cause {
        None => Ok(()),
        Some(line) => log.end_line(line.as_slice()),
    }
}

/// The last flow node of the first thread, which is the script's.
fn first_head<R: ScriptThread>(alloc: Global, threads: &[Seated<R>]) -> Result<Ids, AllocError>
    ensures { IfOk result (λ ids. ids ≡ first_head R.stance threads.now ∷ []) }
{
    let head = match threads.first() {
        Some(seat) => seat.thread.head(),
        None => 0,
    };
    let mut ids = Ids::new(alloc);
    ids.push(head)?;
    Ok(ids)
}

/// The last flow nodes of all threads.
fn heads_of<R: ScriptThread>(alloc: Global, threads: &[Seated<R>]) -> Result<Ids, AllocError>
    ensures { IfOk result (λ ids. ids ≡ heads R.stance threads.now) }
{
    let mut ids = Ids::new(alloc);
    for seat in threads {
        ids.push(seat.thread.head())?;
    }
    Ok(ids)
}

/// The cell of this number; `None` where there is none.
fn cell_at(heap: &Heap, cell: u32) -> Option<&Cell>
    ensures { option_copied result ≡ slice_get heap.now.cells cell }
{
    if cell >= heap.len() {
        return None;
    }
    Some(heap.get(cell))
}

/// The result of a build whose script ended so, where it was this before.
fn result_of(heap: &Heap, so_far: BuildResult, outcome: Outcome) -> BuildResult
    ensures { result ≡ end_result outcome so_far heap.now.cells }
{
    match outcome {
        Outcome::Value(_) => so_far,
        Outcome::Thrown(cell) => so_far.worse(uncaught_result(cell_at(heap, cell))),
    }
}

/// What a throwable that nothing caught makes of a build, at least.
fn uncaught_result(thrown: Option<&Cell>) -> BuildResult
    ensures { result ≡ W.uncaught_result (option_copied thrown.entry) }
{
    match thrown {
        Some(
            Cell::Thrown {
                class: Class::FlowInterrupted,
                ..
            },
        ) => BuildResult::Aborted,
        _ => BuildResult::Failure,
    }
}

/// The line of what ended a script; `None` where there is none. `AllocError` where the memory was refused.
fn cause_of(alloc: Global, heap: &Heap, outcome: Outcome) -> Result<Option<Text>, AllocError>
    ensures { IfOk result (λ cause. lines_of cause ≡ causes outcome heap.now.cells) }
{
    match outcome {
        Outcome::Value(_) => Ok(None),
        Outcome::Thrown(cell) => uncaught(alloc, cell_at(heap, cell)),
    }
}

/// The line of a throwable that nothing caught.
fn uncaught(alloc: Global, thrown: Option<&Cell>) -> Result<Option<Text>, AllocError>
    ensures { IfOk result (λ cause. lines_of cause ≡ W.uncaught (option_copied thrown.entry)) }
{
    match thrown {
        Some(Cell::Thrown { class, message }) => uncaught_line(alloc, *class, message),
        _ => Ok(None),
    }
}

fn uncaught_line(
    alloc: Global,
    class: Class,
    message: &Option<Text>,
) -> Result<Option<Text>, AllocError>
    ensures { IfOk result (λ cause. lines_of cause ≡ uncaught_lines class message.now) }
{
    match class {
        Class::Abort => Ok(Some(error_line(alloc, message)?)),
        Class::FlowInterrupted => message.clone(),
        _ => Ok(Some(thrown_line(alloc, class, message)?)),
    }
}

/// The line of a failure.
fn error_line(alloc: Global, message: &Option<Text>) -> Result<Text, AllocError>
    ensures { IfOk result (λ line. line ≡ codes "ERROR: " ++ unwrap_or message.now []) }
{
    let mut line = Text::from_slice(alloc, b"ERROR: ")?;
    if let Some(message) = message {
        line.append(message.as_slice())?;
    }
    Ok(line)
}

/// A throwable: its class, and its message behind it where it has one.
fn thrown_line(alloc: Global, class: Class, message: &Option<Text>) -> Result<Text, AllocError>
    ensures { IfOk result (λ line. line ≡ thrown_text class message.now) }
{
    let mut line = Text::from_str(alloc, class.name())?;
    if let Some(message) = message {
        line.append(b": ")?;
        line.append(message.as_slice())?;
    }
    Ok(line)
}

/// The line of a limit that was met.
fn limit_text(alloc: Global, kind: LimitKind) -> Result<Text, AllocError>
    ensures { IfOk result (λ line. line ≡ limit_line kind) }
{
    let mut line = Text::from_slice(alloc, b"Limit reached: ")?;
    line.append(kind.name().as_bytes())?;
    Ok(line)
}
