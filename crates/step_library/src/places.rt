//! Where the tasks of a thread run: the executor that it holds, its workspace and its folder.

ghost use Rattle.std.specs.Prelude.{◌≡◌, ◌<◌, IfOk, length, option_copied, option_map};
ghost use Rattle.model_run.specs.Grants.{executor_of, workspace_text};
ghost use Rattle.model_run.specs.Steps.{folder_of, held_by, held_for, last_number, last_text, place_of};
ghost use Rattle.run_laws.specs.Evaluation.{AllOfSite};
ghost use Rattle.cps_frames.specs.Places.{HasFolders, HoldsExecutors};
ghost use Rattle.cps_frames.specs.Standing.{world_of};
ghost use Rattle.step_library.specs.Places.{place_seen};

use cps_frames::{Shared, ThreadState};
use itoa::Buffer;
use model_run::{Executor, Held, Site};
use model_text::Text;
use std::alloc::{AllocError, Global};

/// The executor that the innermost open `node` holds, with its workspace and the folder of the thread, both absolute
/// paths on the agent.
#[derive(Drop)]
pub(crate) struct Place<'a> {
    pub executor: &'a Executor,
    pub workspace: Text,
    pub folder: Text,
}

/// Where the tasks of a thread run; nowhere outside of `node`. `AllocError` where the memory was refused.
pub(crate) fn place_of<'a>(
    state: &ThreadState,
    shared: &'a Shared,
) -> Result<Option<Place<'a>>, AllocError>
    requires executors { AllOfSite shared.now.site shared.now.held }
    requires holds { HoldsExecutors (world_of shared.now state.now) }
    requires enough { HasFolders state.now.context }
    ensures { IfOk result (λ place. option_map place_seen place ≡ place_of (world_of shared.now state.now)) }
{
    let Some(request) = innermost_request(state) else {
        return Ok(None);
    };
    let Some(held) = held_for(shared.held.as_slice(), request) else {
        unreachable!()
    };
    let Some(executor) = executor_of(&shared.site, held.executor) else {
        unreachable!()
    };
    let alloc = shared.alloc();
    let workspace = workspace_text(alloc, executor, &shared.site, held.workspace)?;
    let folder = last_text(alloc, state.context.folders.as_slice())?;
    Ok(Some(Place {
        executor,
        workspace,
        folder,
    }))
}

/// The last of some texts. `AllocError` where the memory was refused.
fn last_text(alloc: Global, texts: &[Text]) -> Result<Text, AllocError>
    requires some { 0 < length texts.now }
    ensures { IfOk result (λ text. text ≡ last_text texts.now) }
{
    let [.., text] = texts else { unreachable!() };
    Text::from_slice(alloc, text.as_slice())
}

/// The request of the innermost open `node` of a thread.
fn innermost_request(state: &ThreadState) -> Option<u32>
    ensures { result ≡ last_number state.now.context.held }
{
    match state.context.held.as_slice() {
        [.., request] => Some(*request),
        [] => None,
    }
}

/// What is held by this request.
pub(crate) fn held_for(held: &[Held], request: u32) -> Option<Held>
    ensures { result ≡ held_for request held.now }
{
    held.iter().copied().find(|h| h.request == request)
}

/// Who holds this executor.
pub(crate) fn held_by(held: &[Held], executor: u32) -> Option<Held>
    ensures { result ≡ held_by executor held.now }
{
    held.iter().copied().find(|h| h.executor == executor)
}

/// The executor of this number.
pub(crate) fn executor_of(site: &Site, number: u32) -> Option<&Executor>
    ensures { option_copied result ≡ executor_of site.now number }
{
    site.executors
        .as_slice()
        .iter()
        .find(|x| x.number == number)
}

/// The workspace of a job on an executor: the first is named as the job, the others have `@` and their number behind.
/// `AllocError` where the memory was refused.
pub(crate) fn workspace_text(
    alloc: Global,
    executor: &Executor,
    site: &Site,
    number: u32,
) -> Result<Text, AllocError>
    ensures { IfOk result (λ text. text ≡ workspace_text executor.now.root site.now.job number) }
{
    let mut text = executor.root.clone()?;
    text.append(b"/workspace/")?;
    text.append(site.job.as_slice())?;
    if number > 1 {
        text.append(b"@")?;
        text.append(Buffer::new().format(number).as_bytes())?;
    }
    Ok(text)
}

/// A path in a folder; an absolute one is the folder itself. `AllocError` where the memory was refused.
pub(crate) fn folder_of(folder: Text, path: Text) -> Result<Text, AllocError>
    ensures { IfOk result (λ text. text ≡ folder_of folder path) }
{
    if path.as_slice().starts_with(b"/") {
        return Ok(path);
    }
    let mut text = folder;
    text.append(b"/")?;
    text.append(path.as_slice())?;
    Ok(text)
}
