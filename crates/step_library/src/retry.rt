//! `retry`.

ghost use Rattle.std.specs.Prelude.{◌≡◌, ◌++◌, ◌∷◌, [], ◌+◌, ◌^◌, ℕ, ◌<◌, codes, length, slice_get, true, IfOk};
ghost use Rattle.model_values.specs.Fitting.{HasClosure, HasThrowable, IsIn};
ghost use Rattle.model_run.specs.Around.{whole};
ghost use Rattle.model_run.specs.FlowNodes.{block};
ghost use Rattle.model_run.specs.Forms.{after};
ghost use Rattle.model_run.specs.State.{seeing};
ghost use Rattle.model_run.specs.Steps.{after_retry, caught_lines, logging_all, retry_body};
ghost use Rattle.model_run.specs.declared.frame.FrameKind.TheVariants as kind;
ghost use Rattle.cps_frames.specs.Moves.{ComesTo};
ghost use Rattle.cps_frames.specs.Order.{rank};
ghost use Rattle.cps_frames.specs.Places.{MayGoOn};
ghost use Rattle.cps_frames.specs.Standing.{standing};
ghost use Rattle.cps_frames.specs.Ways.{is_block_ending};
ghost use Rattle.step_library.specs.Numbers.{Countable};
ghost use Rattle.step_library.specs.Retries.{FailsSo, Throws};

use crate::blocks::close;
use crate::bodies::{callee_of, next_node, number_at, value_at, whole};
use crate::kept::{caught_lines, is_interruption};
use crate::lines::say_all;
use cell_heap::Heap;
use cps_frames::{Halt, Move, Shared, ThreadState, end_body, note_block, run_body, thrown_of};
use model_run::{Ending, Frame, FrameKind};
use model_text::Text;
use model_values::{Env, Value, Values};
use std::alloc::AllocError;

/// `retry`: a block whose body is begun so many times more where it fails.
pub(crate) fn retry(
    state: &mut ThreadState,
    shared: &mut Shared,
    node: u32,
    env: Env,
    more: u32,
    body: &Value,
) -> Result<Move, Halt>
    requires body { IsIn HasClosure shared.old.heap.cells body.now }
    requires few { more < 2 ^ 31 }
    ensures { (r : ℕ) → 0 < r → ComesTo node r (λ sh a. block (codes "retry") (seeing (λ u. retry_body (after_retry a node env u.own.head body.now more) a node env u.own.head more body.now))) (standing shared.old state.old) result (standing shared.new state.new) }
{
    note_block(state, shared, b"retry")?;
    let start = state.head;
    begin_try(state, shared, node, env, start, more, body)
}

/// A body of `retry` begins, behind which it may be begun so many times more.
fn begin_try(
    state: &mut ThreadState,
    shared: &mut Shared,
    node: u32,
    env: Env,
    start: u32,
    more: u32,
    body: &Value,
) -> Result<Move, Halt>
    requires body { IsIn HasClosure shared.old.heap.cells body.now }
    requires countable { Countable (standing shared.old state.old) }
    requires begun { start < 2 ^ 31 }
    requires few { more < 2 ^ 31 }
    ensures { (r : ℕ) → 0 < r → ComesTo node r (λ sh a. retry_body (after_retry a node env start body.now more) a node env start more body.now) (standing shared.old state.old) result (standing shared.new state.new) }
{
    let callee = callee_of(&shared.heap, body)?;
    let values = tries(shared, start, more, body)?;
    let frame = Frame {
        kind: FrameKind::RetryBody,
        node,
        left: 0,
        env,
        values,
    };
    run_body(state, shared, frame, b"", callee)
}

/// What the frame of a body of `retry` keeps. `AllocError` where the memory was refused.
fn tries(shared: &Shared, start: u32, more: u32, body: &Value) -> Result<Values, AllocError>
    requires begun { start < 2 ^ 31 }
    requires few { more < 2 ^ 31 }
    requires next { length shared.now.graph + 2 < 2 ^ 31 }
    ensures { IfOk result (λ values. values ≡ whole start ∷ whole (length shared.now.graph + 2) ∷ whole more ∷ body.now ∷ []) }
{
    let mut values = Values::new(shared.alloc());
    values.push(whole(start))?;
    values.push(whole(next_node(shared)))?;
    values.push(whole(more))?;
    values.push(*body)?;
    Ok(values)
}

/// A body of `retry` has ended.
pub(crate) fn retry_body(
    state: &mut ThreadState,
    shared: &mut Shared,
    frame: Frame,
    ending: Ending,
) -> Result<Move, Halt>
    requires may { MayGoOn (standing shared.old state.old) frame ending }
    requires kind { frame.kind ≡ kind.RetryBody }
    ensures { ComesTo frame.node (rank frame) (λ sh a. after frame sh a ending) (standing shared.old state.old) result (standing shared.new state.new) }
{
    end_body(state, shared, number_at(&frame.values, 1))?;
    let start = number_at(&frame.values, 0);
    let more = number_at(&frame.values, 2);
    match failure(&shared.heap, more, ending) {
        Ok(cell) => {
            let body = value_at(&frame.values, 3);
            try_again(
                state,
                shared,
                frame.node,
                frame.env,
                start,
                more - 1,
                &body,
                cell,
            )
        }
        Err(ending) => close(state, shared, b"retry", start, ending),
    }
}

/// The throwable behind which a body is begun again. `Err` is how `retry` ends: its body was no failure, or was an
/// interruption, or was begun often enough.
fn failure(heap: &Heap, more: u32, ending: Ending) -> Result<u32, Ending>
    requires thrown { Throws heap.now.cells ending }
    requires ending { is_block_ending ending ≡ true }
    ensures { FailsSo heap.now.cells more ending result }
{
    let cell = thrown_of(ending)?;
    if more == 0 || is_interruption(heap, cell) {
        return Err(Ending::Thrown(cell));
    }
    Ok(cell)
}

/// The body is begun again behind a failure, which is logged.
fn try_again(
    state: &mut ThreadState,
    shared: &mut Shared,
    node: u32,
    env: Env,
    start: u32,
    more: u32,
    body: &Value,
    cell: u32,
) -> Result<Move, Halt>
    requires body { IsIn HasClosure shared.old.heap.cells body.now }
    requires countable { Countable (standing shared.old state.old) }
    requires begun { start < 2 ^ 31 }
    requires few { more < 2 ^ 31 }
    requires thrown { HasThrowable (slice_get shared.old.heap.cells cell) }
    ensures { (r : ℕ) → 0 < r → ComesTo node r (λ sh a. logging_all (caught_lines (slice_get shared.old.heap.cells cell) ++ codes "Retrying" ∷ []) (retry_body (after_retry a node env start body.now more) a node env start more body.now)) (standing shared.old state.old) result (standing shared.new state.new) }
{
    let mut lines = caught_lines(shared.alloc(), &shared.heap, cell)?;
    lines.push(Text::from_str(shared.alloc(), "Retrying")?)?;
    say_all(shared, lines.as_slice())?;
    begin_try(state, shared, node, env, start, more, body)
}
