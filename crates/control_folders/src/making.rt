//! Making a control folder, and what becomes of one that is there.

use crate::control::{ControlFolder, Entry};
use crate::facts::{Facts, Mark, Verdict};
use crate::fate::fate_of;
use crate::machine::Machine;
use edge_files::private::{create_file, create_folder};
use edge_files::sync::sync_folder;
use edge_files::{BuildId, Identity};
use std::io::{ErrorKind, Write};
use std::rt::Files;
use std::{fs, io};

/// How often a folder that changes while it is looked at is looked at again.
const TRIES: u32 = 8;

/// What came of making a control folder.
#[derive(Clone, Copy, Debug, PartialEq, Eq)]
pub enum Making {
    /// It was made.
    Made,
    /// This build's own is there, and its task may have been started.
    Kept,
    /// Another build's is there, whose task may be running elsewhere, as the program that started it can tell.
    Elsewhere,
}

/// Makes the control folder of a task of this build, or finds that this build's own is there and that its task may have been
/// started.
///
/// The folder has the file that names its build, the script, and the permit to run it, which comes last. Its name is on the
/// disk when it was made: after a power cut it still keeps the task from being started again. What is in it is synced when
/// the task is started.
///
/// One that is there and was not started, or is another build's whose task cannot be running, is made anew.
///
/// # Errors
///
/// Where another build's task may be running in it; where something of it cannot be made, read, removed or synced; and
/// where there is no memory.
pub fn make<R: Files + AllocGlobal>(
    rt: &R,
    control: &ControlFolder,
    identity: &Identity,
    machine: &Machine,
    script: &[u8],
) -> io::Result<Making> {
    for _ in 0..TRIES {
        match create_folder(rt, control.path.as_str()) {
            Ok(()) => {
                fill(rt, control, &identity.build, machine, script)?;
                return Ok(Making::Made);
            }
            Err(error) if error.kind() == ErrorKind::AlreadyExists => {}
            Err(error) => return Err(error),
        }
        if let Some(making) = clear(rt, control, identity, machine)? {
            return Ok(making);
        }
    }
    Err(io::Error::new(
        ErrorKind::WouldBlock,
        "its control folder changes while it is looked at",
    ))
}

// Writes what a folder has that was just made. The permit gets its name once all of it was written.
fn fill<R: Files + AllocGlobal>(
    rt: &R,
    control: &ControlFolder,
    build: &BuildId,
    machine: &Machine,
    script: &[u8],
) -> io::Result<()> {
    let alloc = rt.alloc();
    create_file(rt, control.build(alloc, build)?.as_str())?;
    create_file(rt, control.entry(alloc, Entry::Script)?.as_str())?.write_all(script)?;
    let unfinished = control.entry(alloc, Entry::NewPermit)?;
    create_file(rt, unfinished.as_str())?.write_all(machine.line().as_bytes())?;
    fs::rename(
        rt,
        unfinished.as_str(),
        control.entry(alloc, Entry::Permit)?.as_str(),
    )?;
    sync_folder(rt, control.parent.as_str())
}

// Takes away a folder that is there, or answers why it stays.
fn clear<R: Files + AllocGlobal>(
    rt: &R,
    control: &ControlFolder,
    identity: &Identity,
    machine: &Machine,
) -> io::Result<Option<Making>> {
    match facts_of(rt, control, identity, machine)?.verdict() {
        Verdict::Keep => return Ok(Some(Making::Kept)),
        Verdict::Ask => return Ok(Some(Making::Elsewhere)),
        Verdict::Refuse => return Err(may_run()),
        Verdict::Discard => discard(rt, control)?,
        Verdict::Withdraw => {
            if withdraw(rt, control)? {
                discard(rt, control)?;
            }
        }
    }
    Ok(None)
}

/// Why the folder of another build is left alone.
pub fn may_run() -> io::Error {
    io::Error::new(
        ErrorKind::AlreadyExists,
        "another build left a control folder whose task looks as if it ran",
    )
}

// What is found in a folder that is there.
fn facts_of<R: Files + AllocGlobal>(
    rt: &R,
    control: &ControlFolder,
    identity: &Identity,
    machine: &Machine,
) -> io::Result<Facts> {
    let mark = mark_of(rt, control, machine)?;
    let has_result = control.has(rt, Entry::Result)?;
    let has_log = control.has(rt, Entry::Log)?;
    let is_named = control.names(rt, &identity.build)?;
    let is_older = identity.takes_unnamed && mark == Mark::Nothing && (has_log || has_result);
    Ok(Facts {
        is_own: is_named || is_older,
        mark,
        has_result,
        has_log,
        fate: fate_of(rt, control, machine)?,
    })
}

// How far the start of the task has come. The permit is looked for first: it may be taken meanwhile.
fn mark_of<R: Files + AllocGlobal>(
    rt: &R,
    control: &ControlFolder,
    machine: &Machine,
) -> io::Result<Mark> {
    if let Some(permit) = control.read(rt, Entry::Permit)? {
        return Ok(Mark::Permit(machine.boot(permit.as_str())));
    }
    if control.has(rt, Entry::Started)? {
        return Ok(Mark::Started);
    }
    if control.has(rt, Entry::Withdrawn)? {
        return Ok(Mark::Withdrawn);
    }
    Ok(Mark::Nothing)
}

/// Withdraws the permit, and says whether it was still there: then nobody has run the script, and nobody will.
///
/// # Errors
///
/// Where it cannot be renamed, and where there is no memory.
pub fn withdraw<R: Files + AllocGlobal>(rt: &R, control: &ControlFolder) -> io::Result<bool> {
    let permit = control.entry(rt.alloc(), Entry::Permit)?;
    let withdrawn = control.entry(rt.alloc(), Entry::Withdrawn)?;
    match fs::rename(rt, permit.as_str(), withdrawn.as_str()) {
        Ok(()) => Ok(true),
        Err(error) if error.kind() == ErrorKind::NotFound => Ok(false),
        Err(error) => Err(error),
    }
}

/// Takes the folder out of the way in one step, so that no later life finds a part of it, and then removes it.
///
/// # Errors
///
/// Where it cannot be moved or removed, and where there is no memory.
pub fn discard<R: Files + AllocGlobal>(rt: &R, control: &ControlFolder) -> io::Result<()> {
    let aside = aside_of(rt, control)?;
    remove_all(rt, aside.as_str())?;
    fs::rename(rt, control.path.as_str(), aside.as_str())?;
    remove_all(rt, aside.as_str())
}

// Where a folder is moved before it is removed.
fn aside_of<R: AllocGlobal>(rt: &R, control: &ControlFolder) -> io::Result<String> {
    let path = &control.path;
    Ok(format!(in rt.alloc(); "{path}.old")?)
}

/// Removes the folder with all that is in it, and what a stop may have left of an earlier one. One that is not there is
/// removed already.
///
/// # Errors
///
/// Where something in it cannot be removed, and where there is no memory.
pub fn remove<R: Files + AllocGlobal>(rt: &R, control: &ControlFolder) -> io::Result<()> {
    remove_all(rt, control.path.as_str())?;
    remove_all(rt, aside_of(rt, control)?.as_str())
}

fn remove_all<R: Files + AllocGlobal>(rt: &R, path: &str) -> io::Result<()> {
    match fs::remove_dir_all(rt, path) {
        Err(error) if error.kind() == ErrorKind::NotFound => Ok(()),
        answer => answer,
    }
}
