//! What the bodies of steps add to a thread's context, and take away at their end.

ghost use Rattle.std.specs.Prelude.{◌≡◌, ◌<◌, ◌++◌, OnOk, length};
ghost use Rattle.model_run.specs.Grants.{without_request};
ghost use Rattle.model_run.specs.Steps.{entered_node, left_node, with_folder, with_overrides, without_folder, without_overrides};
ghost use Rattle.cps_frames.specs.Standing.{standing};
ghost use Rattle.cps_frames.specs.declared.shared.Shared.{Shared as Common};
ghost use Rattle.step_library.specs.Changing.{Changes};

use cps_frames::{Shared, ThreadState};
use model_run::HeldExecutors;
use model_text::{Pair, Pairs, Text};
use std::alloc::{AllocError, Global};
use std::mem;

/// A folder is entered. `AllocError` where the memory was refused.
pub(crate) fn enter_folder(state: &mut ThreadState, folder: Text) -> Result<(), AllocError>
    ensures { (u : Common) → OnOk result (Changes (with_folder folder) (standing u state.old) (standing u state.new)) }
{
    state.context.folders.push(folder)
}

/// The innermost folder is left.
pub(crate) fn leave_folder(state: &mut ThreadState)
    requires { 0 < length state.old.context.folders }
    ensures { (u : Common) → Changes without_folder (standing u state.old) (standing u state.new) }
{
    let Some(_) = state.context.folders.pop() else {
        unreachable!()
    };
}

/// These variables are added. `AllocError` where the memory was refused.
pub(crate) fn add_overrides(state: &mut ThreadState, overrides: Pairs) -> Result<(), AllocError>
    ensures { (u : Common) → OnOk result (Changes (with_overrides overrides) (standing u state.old) (standing u state.new)) }
{
    add_all(&mut state.context.env, overrides.as_slice())
}

/// Puts pairs behind others. `AllocError` where the memory was refused.
pub(crate) fn add_all(pairs: &mut Pairs, more: &[Pair]) -> Result<(), AllocError>
    ensures { OnOk result (pairs.new ≡ pairs.old ++ more.now) }
{
    for pair in more {
        pairs.push(pair.clone()?)?;
    }
    Ok(())
}

/// The last so many variables are taken away.
pub(crate) fn drop_overrides(state: &mut ThreadState, alloc: Global, count: u32)
    ensures { (u : Common) → Changes (without_overrides count) (standing u state.old) (standing u state.new) }
{
    let mut pairs = mem::replace(&mut state.context.env, Pairs::new(alloc)).into_vec();
    let kept = pairs.len().saturating_sub(count as usize);
    pairs.truncate(kept);
    state.context.env = Pairs::from_vec(pairs);
}

/// The body of a `node` is entered, whose request this is, in its workspace. `AllocError` where the memory was refused.
pub(crate) fn enter_node(
    state: &mut ThreadState,
    request: u32,
    workspace: Text,
) -> Result<(), AllocError>
    ensures { (u : Common) → OnOk result (Changes (entered_node request workspace) (standing u state.old) (standing u state.new)) }
{
    state.context.held.push(request)?;
    state.context.folders.push(workspace)
}

/// The body of a `node` is left, and its executor is given back.
pub(crate) fn leave_node(state: &mut ThreadState, shared: &mut Shared)
    requires executor { 0 < length state.old.context.held }
    requires folder { 0 < length state.old.context.folders }
    ensures { Changes left_node (standing shared.old state.old) (standing shared.new state.new) }
{
    let Some(request) = state.context.held.pop() else {
        unreachable!()
    };
    let Some(_) = state.context.folders.pop() else {
        unreachable!()
    };
    let alloc = shared.alloc();
    release(&mut shared.held, alloc, request);
}

/// What this request holds is released.
fn release(held: &mut HeldExecutors, alloc: Global, request: u32)
    ensures { held.new ≡ without_request request held.old }
{
    let all = mem::replace(held, HeldExecutors::new(alloc));
    *held = without(all, request);
}

/// What is held by others than this request.
fn without(held: HeldExecutors, request: u32) -> HeldExecutors
    ensures { result ≡ without_request request held }
{
    let mut kept = held.into_vec();
    kept.retain(|h| h.request != request);
    HeldExecutors::from_vec(kept)
}
