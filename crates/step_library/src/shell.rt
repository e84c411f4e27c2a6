//! `sh`.

ghost use Rattle.std.specs.Prelude.{◌≡◌, ◌^◌, ◌<◌, ◌+◌, ◌∷◌, [], ℕ, codes, length, IfOk, option_map, pos};
ghost use Rattle.std.specs.Ordering.{int_eq};
ghost use Rattle.std.specs.Str.Lossy.{utf8_lossy};
ghost use Rattle.model_values.specs.Cells.{new_text};
ghost use Rattle.model_run.specs.Around.{cells, ended, limits, value_at};
ghost use Rattle.model_run.specs.FlowNodes.{atom};
ghost use Rattle.model_run.specs.Forms.{after};
ghost use Rattle.model_run.specs.Grants.{task_environment};
ghost use Rattle.model_run.specs.State.{operating, seeing};
ghost use Rattle.model_run.specs.Steps.{exit_message, flag_at, no_node, place_of, sh_ended, sh_in, sh_output, task_of};
ghost use Rattle.model_run.specs.declared.ending.Ending.TheVariants.{Answered};
ghost use Rattle.model_run.specs.declared.frame.FrameKind.TheVariants as kind;
ghost use Rattle.model_run.specs.declared.wait.Answer.TheVariants.{Done};
ghost use Rattle.model_values.specs.declared.value.Value.TheVariants.{Bool as Truth};
ghost use Rattle.run_laws.specs.Evaluation.{AllOfSite};
ghost use Rattle.cps_frames.specs.Places.{HasFolders, HoldsExecutors, MayGoOn};
ghost use Rattle.cps_frames.specs.Moves.{ComesTo};
ghost use Rattle.cps_frames.specs.Order.{rank};
ghost use Rattle.cps_frames.specs.Standing.{standing, world_of};
ghost use Rattle.cps_frames.specs.declared.thread.ThreadState.{ThreadState as Thread};
ghost use Rattle.step_library.specs.Numbers.{IsTruth};
ghost use Rattle.step_library.specs.Waits.{IsDone};

use crate::bodies::value_at;
use crate::context::add_all;
use crate::lines::{joined, throwing};
use crate::places::place_of;
use cps_frames::{Halt, Move, Shared, ThreadState, note_atom, wait_for};
use itoa::Buffer;
use model_run::{Answer, Ending, Executor, Frame, FrameKind, Request, Site};
use model_text::{Bytes, Pair, Pairs, Text};
use model_values::{Class, Env, Value, Values};
use std::alloc::{AllocError, Global};
use value_ops::{Effect, perform};

/// `sh`: a flow node, and the end of a task is waited for, which runs where the thread is.
pub(crate) fn sh(
    state: &mut ThreadState,
    shared: &mut Shared,
    node: u32,
    env: Env,
    script: Text,
    status: bool,
    keep_out: bool,
) -> Result<Move, Halt>
    requires room { shared.old.next_request + 1 < 2 ^ 32 }
    requires executors { AllOfSite shared.old.site shared.old.held }
    requires holds { HoldsExecutors (world_of shared.old state.old) }
    requires enough { HasFolders state.old.context }
    ensures { ComesTo node (2 ^ 66) (λ sh a. atom (codes "sh") (seeing (λ u. sh_in node env script status keep_out u (place_of u)))) (standing shared.old state.old) result (standing shared.new state.new) }
{
    note_atom(state, shared, b"sh")?;
    match task_here(state, shared, script, status, keep_out)? {
        Some(request) => {
            let values = flags(shared.alloc(), status, keep_out)?;
            let frame = Frame {
                kind: FrameKind::ShWait,
                node,
                left: 0,
                env,
                values,
            };
            wait_for(state, shared, frame, request)
        }
        None => no_node(shared),
    }
}

/// What the frame of an `sh` keeps. `AllocError` where the memory was refused.
fn flags(alloc: Global, status: bool, keep_out: bool) -> Result<Values, AllocError>
    ensures { IfOk result (λ values. values ≡ Truth status ∷ Truth keep_out ∷ []) }
{
    let mut values = Values::new(alloc);
    values.push(Value::Bool(status))?;
    values.push(Value::Bool(keep_out))?;
    Ok(values)
}

/// There is no executor where a step needs one.
pub(crate) fn no_node(shared: &mut Shared) -> Result<Move, Halt>
    ensures { (t : Thread) (k r : ℕ) → 0 < r → ComesTo k r (λ sh a. no_node) (standing shared.old t) result (standing shared.new t) }
{
    let message = Text::from_str(
        shared.alloc(),
        "Required context class hudson.FilePath is missing",
    )?;
    throwing(shared, Class::MissingContextVariable, message)
}

/// The task of a script where the thread is, and none outside of `node`. `AllocError` where the memory was refused.
fn task_here(
    state: &ThreadState,
    shared: &Shared,
    script: Text,
    status: bool,
    keep_out: bool,
) -> Result<Option<Request>, AllocError>
    requires executors { AllOfSite shared.now.site shared.now.held }
    requires holds { HoldsExecutors (world_of shared.now state.now) }
    requires enough { HasFolders state.now.context }
    ensures { IfOk result (λ request. request ≡ option_map (λ p. task_of (world_of shared.now state.now) p script status keep_out) (place_of (world_of shared.now state.now))) }
{
    match place_of(state, shared)? {
        Some(place) => {
            let env = task_environment(
                shared.alloc(),
                &shared.site,
                place.executor,
                place.workspace.as_slice(),
                state.context.env.as_slice(),
            )?;
            Ok(Some(Request::Task {
                executor: place.executor.number,
                workspace: place.workspace,
                folder: place.folder,
                env,
                script,
                status,
                keep_out,
                taken: 0,
                out: Bytes::new(shared.alloc()),
            }))
        }
        None => Ok(None),
    }
}

/// The variables of a task: where it runs, and what the `withEnv` around it add. `AllocError` where the memory was refused.
fn task_environment(
    alloc: Global,
    site: &Site,
    executor: &Executor,
    workspace: &[u8],
    overrides: &[Pair],
) -> Result<Pairs, AllocError>
    ensures { IfOk result (λ pairs. pairs ≡ task_environment site.now executor.now workspace.now overrides.now) }
{
    let mut pairs = own_variables(alloc, site, executor, workspace)?;
    add_all(&mut pairs, overrides)?;
    Ok(pairs)
}

/// The variables that tell where a task runs. `AllocError` where the memory was refused.
fn own_variables(
    alloc: Global,
    site: &Site,
    executor: &Executor,
    workspace: &[u8],
) -> Result<Pairs, AllocError>
    ensures { IfOk result (λ pairs. pairs ≡ task_environment site.now executor.now workspace.now []) }
{
    let mut pairs = Pairs::new(alloc);
    pairs.push(pair(alloc, "JOB_NAME", site.job.as_slice())?)?;
    pairs.push(pair(alloc, "BUILD_NUMBER", b"1")?)?;
    pairs.push(pair(alloc, "NODE_NAME", executor.agent.as_slice())?)?;
    let mut buffer = Buffer::new();
    let slot = buffer.format(executor.slot);
    pairs.push(pair(alloc, "EXECUTOR_NUMBER", slot.as_bytes())?)?;
    pairs.push(pair(alloc, "WORKSPACE", workspace)?)?;
    Ok(pairs)
}

/// A name and a value. `AllocError` where the memory was refused.
fn pair(alloc: Global, name: &str, value: &[u8]) -> Result<Pair, AllocError>
    ensures { IfOk result (λ pair. pair ≡ record { name = name.now; value = value.now }) }
{
    Ok(Pair {
        name: Text::from_str(alloc, name)?,
        value: Text::from_slice(alloc, value)?,
    })
}

/// The task has ended.
pub(crate) fn sh_wait(
    state: &ThreadState,
    shared: &mut Shared,
    frame: &Frame,
    ending: Ending,
) -> Result<Move, Halt>
    requires may { MayGoOn (standing shared.old state.now) frame.now ending }
    requires kind { frame.now.kind ≡ kind.ShWait }
    ensures { ComesTo frame.now.node (rank frame.now) (λ sh a. after frame.now sh a ending) (standing shared.old state.now) result (standing shared.new state.now) }
{
    let end = task_end(ending);
    let status = flag_at(&frame.values, 0);
    let keep_out = flag_at(&frame.values, 1);
    sh_ended(shared, status, keep_out, end)
}

/// The exit code of a task, and what was kept of its output.
#[derive(Drop)]
struct TaskEnd {
    code: i32,
    out: Bytes,
}

/// How a task has ended.
fn task_end(ending: Ending) -> TaskEnd
    requires { IsDone ending }
    ensures { ending ≡ Answered (Done result.code result.out) }
{
    let Ending::Answered(answer) = ending else {
        unreachable!()
    };
    match answer {
        Answer::Done { code, out } => TaskEnd { code, out },
        _ => unreachable!(),
    }
}

/// The truth value that a frame keeps at a place.
fn flag_at(values: &Values, at: usize) -> bool
    requires within { at < length values.now }
    requires truth { IsTruth (value_at at values.now) }
    ensures { result ≡ flag_at (value_at at values.now) }
{
    match value_at(values, at) {
        Value::Bool(flag) => flag,
        _ => unreachable!(),
    }
}

/// What `sh` comes to behind its task's end.
fn sh_ended(shared: &mut Shared, status: bool, keep_out: bool, end: TaskEnd) -> Result<Move, Halt>
    ensures { (t : Thread) (k r : ℕ) → 0 < r → ComesTo k r (λ sh a. sh_ended status keep_out end.code end.out) (standing shared.old t) result (standing shared.new t) }
{
    if status {
        return Ok(Move::Ends(Ending::Normal(Value::Int(end.code))));
    }
    if is_zero(&end) {
        return output(shared, keep_out, end.out);
    }
    let message = exit_message(shared.alloc(), &end)?;
    throwing(shared, Class::Abort, message)
}

/// Whether a task's exit code is that of success.
fn is_zero(end: &TaskEnd) -> bool
    ensures { result ≡ int_eq end.now.code (pos 0) }
{
    end.code == 0
}

/// The step's value is the task's output, where it is kept.
fn output(shared: &mut Shared, keep_out: bool, out: Bytes) -> Result<Move, Halt>
    ensures { (t : Thread) (k r : ℕ) → 0 < r → ComesTo k r (λ sh a. sh_output keep_out out) (standing shared.old t) result (standing shared.new t) }
{
    if keep_out {
        return kept_output(shared, out.as_slice());
    }
    Ok(Move::Ends(Ending::Normal(Value::Null)))
}

/// The text of the output.
fn kept_output(shared: &mut Shared, out: &[u8]) -> Result<Move, Halt>
    ensures { (t : Thread) (k r : ℕ) → 0 < r → ComesTo k r (λ sh a. operating (λ w. new_text (limits w) (cells w) (utf8_lossy out.now)) ended) (standing shared.old t) result (standing shared.new t) }
{
    let text = lossy(shared.alloc(), out)?;
    let value = perform(&mut shared.heap, Effect::NewText(text))?;
    Ok(Move::Ends(Ending::Normal(value)))
}

/// The text of bytes, in which each that is none stands as the replacement character. `AllocError` where the memory was
/// refused.
fn lossy(alloc: Global, out: &[u8]) -> Result<Text, AllocError>
    ensures { IfOk result (λ text. text ≡ utf8_lossy out.now) }
{
    let text = String::from_utf8_lossy(alloc, out)?;
    Ok(Text::from_vec(text.into_bytes()))
}

/// The message of a failed script. `AllocError` where the memory was refused.
fn exit_message(alloc: Global, end: &TaskEnd) -> Result<Text, AllocError>
    ensures { IfOk result (λ text. text ≡ exit_message end.now.code) }
{
    let mut buffer = Buffer::new();
    joined(
        alloc,
        "script returned exit code ",
        buffer.format(end.code).as_bytes(),
    )
}
