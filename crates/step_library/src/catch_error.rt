//! `catchError`.

ghost use Rattle.std.specs.Prelude.{◌≡◌, ◌<◌, ◌≤◌, ◌∷◌, ◌++◌, [], ℕ, codes, length, slice_get, true, IfOk, IfSome, OnOk};
ghost use Rattle.cell_heap.specs.Soundness.{ValueBelow};
ghost use Rattle.model_values.specs.Fitting.{HasClosure, HasThrowable, IsIn};
ghost use Rattle.model_values.specs.Kinds.{kind};
ghost use Rattle.model_run.specs.Around.{ended, whole};
ghost use Rattle.model_run.specs.Callables.{calling, closure_of};
ghost use Rattle.model_run.specs.FlowNodes.{block};
ghost use Rattle.model_run.specs.Forms.{after};
ghost use Rattle.model_run.specs.Results.{rank as result_rank};
ghost use Rattle.model_run.specs.State.{changed, operating, seeing};
ghost use Rattle.model_run.specs.Steps.{catch_end, catch_error_body, caught, caught_lines, kept_text, logging_all, message_lines, result_at, starts, worsened};
ghost use Rattle.model_run.specs.declared.frame.FrameKind.TheVariants as kind;
ghost use Rattle.model_values.specs.declared.value.Value.{Value as AValue};
ghost use Rattle.model_values.specs.declared.value.Value.TheVariants.{Null};
ghost use Rattle.value_ops.specs.Effects.{EffectBelow, IsReadAs};
ghost use Rattle.cps_frames.specs.Changes.{Done};
ghost use Rattle.cps_frames.specs.Moves.{ComesTo};
ghost use Rattle.cps_frames.specs.Order.{rank};
ghost use Rattle.cps_frames.specs.Places.{MayGoOn};
ghost use Rattle.cps_frames.specs.Standing.{standing, world_of};
ghost use Rattle.cps_frames.specs.Ways.{is_block_ending};
ghost use Rattle.cps_frames.specs.declared.thread.ThreadState.{ThreadState as Thread};
ghost use Rattle.step_library.specs.Kept.{IsKept, IsMessage};
ghost use Rattle.step_library.specs.Numbers.{Countable};
ghost use Rattle.step_library.specs.Retries.{Throws};
ghost use Rattle.value_view.specs.Seen.{seen};

use crate::blocks::close;
use crate::bodies::{callee_of, number_at, starts, value_at, whole};
use crate::kept::add_caught_lines;
use crate::lines::{say_all, worsen};
use cell_heap::Heap;
use cps_frames::{Halt, Move, Shared, ThreadState, end_body, note_block, run_body, thrown_of};
use model_run::{BuildResult, Ending, Frame, FrameKind};
use model_text::{Text, Texts};
use model_values::{Env, Value, Values};
use std::alloc::{AllocError, Global};
use value_ops::{Effect, perform};
use value_view::{Kind, OpRefusal, kind_of, text_of};

/// `catchError`: a block behind whose failure the build goes on, with this result at least.
pub(crate) fn catch_error(
    state: &mut ThreadState,
    shared: &mut Shared,
    node: u32,
    env: Env,
    message: Option<Value>,
    least: BuildResult,
    body: &Value,
) -> Result<Move, Halt>
    requires body { IsIn HasClosure shared.old.heap.cells body.now }
    requires message { IfSome message (ValueBelow (length shared.old.heap.cells)) }
    ensures { (r : ℕ) → 0 < r → ComesTo node r (λ sh a. operating (λ u. kept_text u message) (λ m. block (codes "catchError") (seeing (λ u. calling (closure_of u body.now) (ended Null) (catch_error_body a node env (result_rank least) m u))))) (standing shared.old state.old) result (standing shared.new state.new) }
{
    let message = keep_text(shared, message)?;
    begin_catch(state, shared, node, env, message, least, body)
}

/// The message as a text, which is kept while the body runs, and null where there is none.
fn keep_text(shared: &mut Shared, message: Option<Value>) -> Result<Value, OpRefusal>
    requires { IfSome message (ValueBelow (length shared.old.heap.cells)) }
    ensures done { (t : Thread) → Done (λ w. kept_text w message) (standing shared.old t) result (standing shared.new t) }
    ensures stay { OnOk result ((f : AValue) → IsIn HasClosure shared.old.heap.cells f → IsIn HasClosure shared.new.heap.cells f) }
{
    let effect = text_effect(shared, message)?;
    perform(&mut shared.heap, effect)
}

/// What makes the text of the message.
fn text_effect(shared: &Shared, message: Option<Value>) -> Result<Effect, OpRefusal>
    requires { IfSome message (ValueBelow (length shared.now.heap.cells)) }
    ensures read { (t : Thread) → IsReadAs shared.now.heap.cells (kept_text (world_of shared.now t) message) result }
    ensures below { IfOk result (EffectBelow (length shared.now.heap.cells)) }
    ensures kept { IfOk result IsKept }
{
    let Some(value) = message else {
        return Ok(Effect::Give(Value::Null));
    };
    match kind_of(&shared.heap, &value) {
        Kind::Text(_) => Ok(Effect::Give(value)),
        _ => Ok(Effect::NewText(text_of(shared.alloc(), &shared.heap, &value)?)),
    }
}

/// The block of `catchError`, with its message as it is kept.
fn begin_catch(
    state: &mut ThreadState,
    shared: &mut Shared,
    node: u32,
    env: Env,
    message: Value,
    least: BuildResult,
    body: &Value,
) -> Result<Move, Halt>
    requires body { IsIn HasClosure shared.old.heap.cells body.now }
    ensures { (r : ℕ) → 0 < r → ComesTo node r (λ sh a. block (codes "catchError") (seeing (λ u. calling (closure_of u body.now) (ended Null) (catch_error_body a node env (result_rank least) message u)))) (standing shared.old state.old) result (standing shared.new state.new) }
{
    note_block(state, shared, b"catchError")?;
    let callee = callee_of(&shared.heap, body)?;
    let values = catch_values(state, shared, least, message)?;
    let frame = Frame {
        kind: FrameKind::CatchErrorBody,
        node,
        left: 0,
        env,
        values,
    };
    run_body(state, shared, frame, b"", callee)
}

/// What the frame of a `catchError` keeps. `AllocError` where the memory was refused.
fn catch_values(
    state: &ThreadState,
    shared: &Shared,
    least: BuildResult,
    message: Value,
) -> Result<Values, AllocError>
    requires { Countable (standing shared.now state.now) }
    ensures { IfOk result (λ values. values ≡ starts (world_of shared.now state.now) ++ whole (result_rank least) ∷ message ∷ []) }
{
    let mut values = starts(state, shared)?;
    values.push(whole(u32::from(least.rank())))?;
    values.push(message)?;
    Ok(values)
}

/// The body of `catchError` has ended.
pub(crate) fn catch_error_body(
    state: &mut ThreadState,
    shared: &mut Shared,
    frame: Frame,
    ending: Ending,
) -> Result<Move, Halt>
    requires may { MayGoOn (standing shared.old state.old) frame ending }
    requires kind { frame.kind ≡ kind.CatchErrorBody }
    ensures { ComesTo frame.node (rank frame) (λ sh a. after frame sh a ending) (standing shared.old state.old) result (standing shared.new state.new) }
{
    end_body(state, shared, number_at(&frame.values, 1))?;
    let start = number_at(&frame.values, 0);
    let least = number_at(&frame.values, 2);
    let message = value_at(&frame.values, 3);
    caught(state, shared, start, least, &message, ending)
}

/// What `catchError` does behind the end node of its body.
fn caught(
    state: &mut ThreadState,
    shared: &mut Shared,
    start: u32,
    least: u32,
    message: &Value,
    ending: Ending,
) -> Result<Move, Halt>
    requires least { least ≤ 4 }
    requires message { ValueBelow (length shared.old.heap.cells) message.now }
    requires text { IsMessage (kind shared.old.heap.cells message.now) }
    requires thrown { Throws shared.old.heap.cells ending }
    requires ending { is_block_ending ending ≡ true }
    ensures { (k r : ℕ) → 0 < r → ComesTo k r (λ sh a. caught start least message.now ending) (standing shared.old state.old) result (standing shared.new state.new) }
{
    match thrown_of(ending) {
        Ok(cell) => go_on_behind(state, shared, start, least, message, cell),
        Err(_other) => catch_end(state, shared, start),
    }
}

/// A failure is logged, the result gets worse, and the build goes on.
fn go_on_behind(
    state: &mut ThreadState,
    shared: &mut Shared,
    start: u32,
    least: u32,
    message: &Value,
    cell: u32,
) -> Result<Move, Halt>
    requires least { least ≤ 4 }
    requires message { ValueBelow (length shared.old.heap.cells) message.now }
    requires text { IsMessage (kind shared.old.heap.cells message.now) }
    requires thrown { HasThrowable (slice_get shared.old.heap.cells cell) }
    ensures { (k r : ℕ) → 0 < r → ComesTo k r (λ sh a. logging_all (message_lines (kind shared.old.heap.cells message.now) ++ caught_lines (slice_get shared.old.heap.cells cell)) (changed (worsened (result_at least)) (catch_end start))) (standing shared.old state.old) result (standing shared.new state.new) }
{
    let lines = lines_of(shared.alloc(), &shared.heap, message, cell)?;
    say_all(shared, lines.as_slice())?;
    worsen(shared, result_at(least));
    catch_end(state, shared, start)
}

/// The lines of a failure: the message, and the throwable's. `AllocError` where the memory was refused.
fn lines_of(alloc: Global, heap: &Heap, message: &Value, cell: u32) -> Result<Texts, AllocError>
    requires message { ValueBelow (length heap.now.cells) message.now }
    requires text { IsMessage (kind heap.now.cells message.now) }
    requires thrown { HasThrowable (slice_get heap.now.cells cell) }
    ensures { IfOk result (λ lines. lines ≡ message_lines (kind heap.now.cells message.now) ++ caught_lines (slice_get heap.now.cells cell)) }
{
    let mut lines = message_lines(alloc, &kind_of(heap, message))?;
    add_caught_lines(alloc, heap, cell, &mut lines)?;
    Ok(lines)
}

/// The line of a message, and none of null. `AllocError` where the memory was refused.
fn message_lines(alloc: Global, kind: &Kind<'_>) -> Result<Texts, AllocError>
    requires { IsMessage (seen kind.now) }
    ensures { IfOk result (λ lines. lines ≡ message_lines (seen kind.now)) }
{
    match kind {
        Kind::Text(text) => one_line(alloc, Text::clone(text)?),
        Kind::Null => Ok(Texts::new(alloc)),
        _ => unreachable!(),
    }
}

/// One line. `AllocError` where the memory was refused.
fn one_line(alloc: Global, line: Text) -> Result<Texts, AllocError>
    ensures { IfOk result (λ lines. lines ≡ line ∷ []) }
{
    let mut lines = Texts::new(alloc);
    lines.push(line)?;
    Ok(lines)
}

/// `catchError` ends with null.
fn catch_end(state: &mut ThreadState, shared: &mut Shared, start: u32) -> Result<Move, Halt>
    ensures { (k r : ℕ) → 0 < r → ComesTo k r (λ sh a. catch_end start) (standing shared.old state.old) result (standing shared.new state.new) }
{
    close(
        state,
        shared,
        b"catchError",
        start,
        Ending::Normal(Value::Null),
    )
}

/// The result of this number.
fn result_at(number: u32) -> BuildResult
    requires { number ≤ 4 }
    ensures { result ≡ result_at number }
{
    match number {
        0 => BuildResult::Success,
        1 => BuildResult::Unstable,
        2 => BuildResult::Failure,
        3 => BuildResult::NotBuilt,
        4 => BuildResult::Aborted,
        _ => unreachable!(),
    }
}
