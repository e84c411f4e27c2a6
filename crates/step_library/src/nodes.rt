//! `node`: an executor for the body of a step.

ghost use Rattle.std.specs.Prelude.{◌≡◌, ◌+◌, ◌^◌, ◌<◌, ◌∷◌, [], ℕ, Some, None, codes, IfOk};
ghost use Rattle.model_values.specs.Fitting.{HasClosure, IsIn};
ghost use Rattle.model_run.specs.Around.{ended, frame};
ghost use Rattle.model_run.specs.Callables.{calling, closure_of};
ghost use Rattle.model_run.specs.FlowNodes.{block, logging};
ghost use Rattle.model_run.specs.Forms.{after};
ghost use Rattle.model_run.specs.State.{changed, seeing};
ghost use Rattle.model_run.specs.Steps.{after_node_wait, entered_node, held_by, node_body, node_held, running_line, waiting_for};
ghost use Rattle.model_run.specs.declared.ending.Ending.TheVariants.{Answered};
ghost use Rattle.model_run.specs.declared.frame.FrameKind.TheVariants as kind;
ghost use Rattle.model_run.specs.declared.request.Request.TheVariants.{Node as NodeRequest};
ghost use Rattle.model_run.specs.declared.wait.Answer.TheVariants.{Granted};
ghost use Rattle.model_values.specs.declared.value.Value.TheVariants.{Null};
ghost use Rattle.run_laws.specs.Evaluation.{AllOfSite};
ghost use Rattle.cps_frames.specs.Moves.{ComesTo};
ghost use Rattle.cps_frames.specs.Order.{rank};
ghost use Rattle.cps_frames.specs.Places.{MayGoOn};
ghost use Rattle.cps_frames.specs.Standing.{standing, world_of};
ghost use Rattle.step_library.specs.Numbers.{Countable};
ghost use Rattle.step_library.specs.Waits.{IsGranted};

use crate::blocks::close;
use crate::bodies::{callee_of, number_at, starts, value_at};
use crate::context::{enter_node, leave_node};
use crate::lines::joined;
use crate::places::{executor_of, held_by, workspace_text};
use cps_frames::{Halt, Move, Shared, ThreadState, end_body, note_block, run_body, say, wait_for};
use model_run::{Answer, Ending, Executor, Frame, FrameKind, Request};
use model_text::Text;
use model_values::{Env, Value, Values};
use std::alloc::{AllocError, Global};

/// `node`: a block, for whose body an executor is waited for that the label fits.
pub(crate) fn node_step(
    state: &mut ThreadState,
    shared: &mut Shared,
    node: u32,
    env: Env,
    label: Option<Text>,
    body: &Value,
) -> Result<Move, Halt>
    requires room { shared.old.next_request + 1 < 2 ^ 32 }
    ensures { ComesTo node (2 ^ 66) (λ sh a. block (codes "node") (seeing (λ u. waiting_for (NodeRequest label) (frame kind.NodeWait node 0 env (body.now ∷ [])) (after_node_wait a node env body.now) u))) (standing shared.old state.old) result (standing shared.new state.new) }
{
    note_block(state, shared, b"node")?;
    let mut values = Values::new(shared.alloc());
    values.push(*body)?;
    let frame = Frame {
        kind: FrameKind::NodeWait,
        node,
        left: 0,
        env,
        values,
    };
    wait_for(state, shared, frame, Request::Node { label })
}

/// The executor is there, and the body begins in its workspace.
pub(crate) fn node_wait(
    state: &mut ThreadState,
    shared: &mut Shared,
    frame: Frame,
    ending: Ending,
) -> Result<Move, Halt>
    requires may { MayGoOn (standing shared.old state.old) frame ending }
    requires kind { frame.kind ≡ kind.NodeWait }
    ensures { ComesTo frame.node (rank frame) (λ sh a. after frame sh a ending) (standing shared.old state.old) result (standing shared.new state.new) }
{
    let executor = granted(ending);
    let body = value_at(&frame.values, 0);
    node_granted(state, shared, frame.node, frame.env, &body, executor)
}

/// The executor that an answer grants.
fn granted(ending: Ending) -> u32
    requires { IsGranted ending }
    ensures { ending ≡ Answered (Granted result) }
{
    let Ending::Answered(answer) = ending else {
        unreachable!()
    };
    match answer {
        Answer::Granted(executor) => executor,
        _ => unreachable!(),
    }
}

/// The body of a `node` begins on this executor.
fn node_granted(
    state: &mut ThreadState,
    shared: &mut Shared,
    node: u32,
    env: Env,
    body: &Value,
    executor: u32,
) -> Result<Move, Halt>
    requires body { IsIn HasClosure shared.old.heap.cells body.now }
    requires countable { Countable (standing shared.old state.old) }
    requires held { held_by executor shared.old.held ≡ None → ⊥ }
    requires executors { AllOfSite shared.old.site shared.old.held }
    ensures { (r : ℕ) → 0 < r → ComesTo node r (λ sh a. seeing (λ w. node_held a node env body.now w (held_by executor w.shared.held))) (standing shared.old state.old) result (standing shared.new state.new) }
{
    let alloc = shared.alloc();
    let Some(held) = held_by(shared.held.as_slice(), executor) else {
        unreachable!()
    };
    let Some(executor) = executor_of(&shared.site, held.executor) else {
        unreachable!()
    };
    let workspace = workspace_text(alloc, executor, &shared.site, held.workspace)?;
    let line = running_line(alloc, executor, workspace.as_slice())?;
    begin_node(
        state,
        shared,
        node,
        env,
        body,
        held.request,
        workspace,
        line,
    )
}

/// The line of a `node` whose body begins. `AllocError` where the memory was refused.
fn running_line(alloc: Global, executor: &Executor, workspace: &[u8]) -> Result<Text, AllocError>
    ensures { IfOk result (λ line. line ≡ running_line executor.now workspace.now) }
{
    let mut line = joined(alloc, "Running on ", executor.agent.as_slice())?;
    line.append(b" in ")?;
    line.append(workspace)?;
    Ok(line)
}

/// The body of a `node` begins in this workspace, behind this line.
fn begin_node(
    state: &mut ThreadState,
    shared: &mut Shared,
    node: u32,
    env: Env,
    body: &Value,
    request: u32,
    workspace: Text,
    line: Text,
) -> Result<Move, Halt>
    requires body { IsIn HasClosure shared.old.heap.cells body.now }
    requires countable { Countable (standing shared.old state.old) }
    ensures { (r : ℕ) → 0 < r → ComesTo node r (λ sh a. logging line (changed (entered_node request workspace) (calling (closure_of (world_of shared.old state.old) body.now) (ended Null) (node_body a node env (world_of shared.old state.old))))) (standing shared.old state.old) result (standing shared.new state.new) }
{
    let callee = callee_of(&shared.heap, body)?;
    let values = starts(state, shared)?;
    say(shared, line.as_slice())?;
    enter_node(state, request, workspace)?;
    let frame = Frame {
        kind: FrameKind::NodeBody,
        node,
        left: 0,
        env,
        values,
    };
    run_body(state, shared, frame, b"", callee)
}

/// The body of `node` has ended.
pub(crate) fn node_body(
    state: &mut ThreadState,
    shared: &mut Shared,
    frame: Frame,
    ending: Ending,
) -> Result<Move, Halt>
    requires may { MayGoOn (standing shared.old state.old) frame ending }
    requires kind { frame.kind ≡ kind.NodeBody }
    ensures { ComesTo frame.node (rank frame) (λ sh a. after frame sh a ending) (standing shared.old state.old) result (standing shared.new state.new) }
{
    end_body(state, shared, number_at(&frame.values, 1))?;
    leave_node(state, shared);
    close(state, shared, b"node", number_at(&frame.values, 0), ending)
}
