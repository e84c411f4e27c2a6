//! `dir` and `withEnv`: in what folder and with what variables the body of a step runs.

ghost use Rattle.std.specs.Prelude.{◌≡◌, ◌^◌, ◌<◌, ◌∷◌, ◌++◌, [], ℕ, codes, length, option_map, IfOk};
ghost use Rattle.model_values.specs.Fitting.{HasClosure, IsIn};
ghost use Rattle.model_run.specs.Around.{ended, whole};
ghost use Rattle.model_run.specs.Callables.{calling, closure_of};
ghost use Rattle.model_run.specs.FlowNodes.{block, end_block, logging};
ghost use Rattle.model_run.specs.Forms.{after};
ghost use Rattle.model_run.specs.State.{changed, seeing};
ghost use Rattle.model_run.specs.Steps.{dir_body, dir_in, folder_of, no_node, place_of, starts, with_env_body, with_folder, with_overrides};
ghost use Rattle.model_run.specs.declared.frame.FrameKind.TheVariants as kind;
ghost use Rattle.model_values.specs.declared.value.Value.TheVariants.{Null};
ghost use Rattle.run_laws.specs.Evaluation.{AllOfSite};
ghost use Rattle.cps_frames.specs.Places.{HasFolders, HoldsExecutors, MayGoOn};
ghost use Rattle.cps_frames.specs.Moves.{ComesTo};
ghost use Rattle.cps_frames.specs.Order.{rank};
ghost use Rattle.cps_frames.specs.Standing.{standing, world_of};
ghost use Rattle.step_library.specs.Numbers.{Countable};

use crate::blocks::close;
use crate::bodies::{callee_of, number_at, starts, whole};
use crate::context::{add_overrides, drop_overrides, enter_folder, leave_folder};
use crate::lines::joined;
use crate::places::{folder_of, place_of};
use crate::shell::no_node;
use cps_frames::{Halt, Move, Shared, ThreadState, end_block, end_body, note_block, run_body, say};
use model_run::{Ending, Frame, FrameKind};
use model_text::{Pairs, Text};
use model_values::{Env, Value, Values};
use std::alloc::AllocError;

/// `dir`: a block in a folder of the thread's executor.
pub(crate) fn dir(
    state: &mut ThreadState,
    shared: &mut Shared,
    node: u32,
    env: Env,
    path: Text,
    body: &Value,
) -> Result<Move, Halt>
    requires body { IsIn HasClosure shared.old.heap.cells body.now }
    requires executors { AllOfSite shared.old.site shared.old.held }
    requires holds { HoldsExecutors (world_of shared.old state.old) }
    requires enough { HasFolders state.old.context }
    ensures { (r : ℕ) → 0 < r → ComesTo node r (λ sh a. block (codes "dir") (seeing (λ u. dir_in a node env path body.now u (place_of u)))) (standing shared.old state.old) result (standing shared.new state.new) }
{
    note_block(state, shared, b"dir")?;
    match folder_here(state, shared, path)? {
        Some(folder) => begin_dir(state, shared, node, env, folder, body),
        None => no_folder(state, shared),
    }
}

/// The folder of a path where the thread is, and none outside of `node`. `AllocError` where the memory was refused.
fn folder_here(state: &ThreadState, shared: &Shared, path: Text) -> Result<Option<Text>, AllocError>
    requires executors { AllOfSite shared.now.site shared.now.held }
    requires holds { HoldsExecutors (world_of shared.now state.now) }
    requires enough { HasFolders state.now.context }
    ensures { IfOk result (λ folder. folder ≡ option_map (λ p. folder_of p.folder path) (place_of (world_of shared.now state.now))) }
{
    match place_of(state, shared)? {
        Some(place) => Ok(Some(folder_of(place.folder, path)?)),
        None => Ok(None),
    }
}

/// A `dir` outside of `node` ends with its flow node, and throws.
fn no_folder(state: &mut ThreadState, shared: &mut Shared) -> Result<Move, Halt>
    ensures { (k r : ℕ) → 0 < r → ComesTo k r (λ sh a. end_block (codes "dir") state.old.head no_node) (standing shared.old state.old) result (standing shared.new state.new) }
{
    let start = state.head;
    end_block(state, shared, b"dir", start)?;
    no_node(shared)
}

/// The body of `dir` begins in this folder.
fn begin_dir(
    state: &mut ThreadState,
    shared: &mut Shared,
    node: u32,
    env: Env,
    folder: Text,
    body: &Value,
) -> Result<Move, Halt>
    requires body { IsIn HasClosure shared.old.heap.cells body.now }
    requires countable { Countable (standing shared.old state.old) }
    ensures { (r : ℕ) → 0 < r → ComesTo node r (λ sh a. logging (codes "Running in " ++ folder) (changed (with_folder folder) (calling (closure_of (world_of shared.old state.old) body.now) (ended Null) (dir_body a node env (world_of shared.old state.old))))) (standing shared.old state.old) result (standing shared.new state.new) }
{
    let line = joined(shared.alloc(), "Running in ", folder.as_slice())?;
    let callee = callee_of(&shared.heap, body)?;
    let values = starts(state, shared)?;
    say(shared, line.as_slice())?;
    enter_folder(state, folder)?;
    let frame = Frame {
        kind: FrameKind::DirBody,
        node,
        left: 0,
        env,
        values,
    };
    run_body(state, shared, frame, b"", callee)
}

/// The body of `dir` has ended.
pub(crate) fn dir_body(
    state: &mut ThreadState,
    shared: &mut Shared,
    frame: Frame,
    ending: Ending,
) -> Result<Move, Halt>
    requires may { MayGoOn (standing shared.old state.old) frame ending }
    requires kind { frame.kind ≡ kind.DirBody }
    ensures { ComesTo frame.node (rank frame) (λ sh a. after frame sh a ending) (standing shared.old state.old) result (standing shared.new state.new) }
{
    end_body(state, shared, number_at(&frame.values, 1))?;
    leave_folder(state);
    close(state, shared, b"dir", number_at(&frame.values, 0), ending)
}

/// `withEnv`: a block whose tasks have further variables.
pub(crate) fn with_env(
    state: &mut ThreadState,
    shared: &mut Shared,
    node: u32,
    env: Env,
    overrides: Pairs,
    body: &Value,
) -> Result<Move, Halt>
    requires body { IsIn HasClosure shared.old.heap.cells body.now }
    requires few { length overrides < 2 ^ 31 }
    ensures { (r : ℕ) → 0 < r → ComesTo node r (λ sh a. block (codes "withEnv") (seeing (λ u. changed (with_overrides overrides) (calling (closure_of u body.now) (ended Null) (with_env_body a node env (length overrides) u))))) (standing shared.old state.old) result (standing shared.new state.new) }
{
    note_block(state, shared, b"withEnv")?;
    let callee = callee_of(&shared.heap, body)?;
    let values = starts_with(state, shared, overrides.len() as u32)?;
    add_overrides(state, overrides)?;
    let frame = Frame {
        kind: FrameKind::WithEnvBody,
        node,
        left: 0,
        env,
        values,
    };
    run_body(state, shared, frame, b"", callee)
}

/// The numbers of the first nodes of a block and of its body, and a number more. `AllocError` where the memory was
/// refused.
fn starts_with(state: &ThreadState, shared: &Shared, number: u32) -> Result<Values, AllocError>
    requires countable { Countable (standing shared.now state.now) }
    requires few { number < 2 ^ 31 }
    ensures { IfOk result (λ values. values ≡ starts (world_of shared.now state.now) ++ whole number ∷ []) }
{
    let mut values = starts(state, shared)?;
    values.push(whole(number))?;
    Ok(values)
}

/// The body of `withEnv` has ended.
pub(crate) fn with_env_body(
    state: &mut ThreadState,
    shared: &mut Shared,
    frame: Frame,
    ending: Ending,
) -> Result<Move, Halt>
    requires may { MayGoOn (standing shared.old state.old) frame ending }
    requires kind { frame.kind ≡ kind.WithEnvBody }
    ensures { ComesTo frame.node (rank frame) (λ sh a. after frame sh a ending) (standing shared.old state.old) result (standing shared.new state.new) }
{
    end_body(state, shared, number_at(&frame.values, 1))?;
    let count = number_at(&frame.values, 2);
    drop_overrides(state, shared.alloc(), count);
    close(
        state,
        shared,
        b"withEnv",
        number_at(&frame.values, 0),
        ending,
    )
}
