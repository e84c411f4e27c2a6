//! Whether the process of a task that was started can still leave a result.

ghost use Rattle.std.specs.Prelude.{◌≡◌};

use crate::control::{ControlFolder, Entry};
use crate::machine::{Boot, Machine};
use crate::process::Process;
use std::io;
use std::rt::Files;

/// Whether the process of a task can still leave a result.
#[derive(Clone, Copy, Debug, PartialEq, Eq)]
pub enum Fate {
    /// It is there.
    Lives,
    /// It is there no more.
    Gone,
    /// It was started before the machine was, or on another machine.
    OtherBoot,
    /// It was started by a program of its agent, on any machine: that program alone can tell.
    Elsewhere,
    /// The system does not tell.
    Unknown,
}

/// What is known of the process of a folder's task.
///
/// # Errors
///
/// Where the system does not tell what is in the folder, and where there is no memory.
pub fn fate_of<R: Files + AllocGlobal>(
    rt: &R,
    control: &ControlFolder,
    machine: &Machine,
) -> io::Result<Fate> {
    if control.has(rt, Entry::Task)? || control.has(rt, Entry::Machine)? {
        return Ok(Fate::Elsewhere);
    }
    let Some(started) = permit_of(rt, control)? else {
        return Ok(Fate::Unknown);
    };
    let is_there = if machine.sees_processes_of(started.as_str()) {
        process_is_there(rt, control)?
    } else {
        None
    };
    Ok(Fate::of(machine.boot(started.as_str()), is_there))
}

impl Fate {
    ghost use Rattle.control_folders.specs.Fate.{fate_by};

    // Of a process that took a permit of this boot, and of which it is known whether it is there.
    fn of(boot: Boot, is_there: Option<bool>) -> Fate
        ensures { result ≡ fate_by boot is_there }
    {
        match (boot, is_there) {
            (Boot::Other, _) => Fate::OtherBoot,
            (_, Some(true)) => Fate::Lives,
            (_, Some(false)) => Fate::Gone,
            (_, None) => Fate::Unknown,
        }
    }
}

// Whether the process of this machine that took the permit is there. None where it left no line, or the system does not tell.
fn process_is_there<R: Files + AllocGlobal>(
    rt: &R,
    control: &ControlFolder,
) -> io::Result<Option<bool>> {
    let Some(line) = control.read(rt, Entry::Process)? else {
        return Ok(None);
    };
    match Process::parse(line.as_str()) {
        Some(process) => process.is_there(rt),
        None => Ok(None),
    }
}

// The permit, taken or not. Behind a power cut it may stand there as if nobody had taken it.
fn permit_of<R: Files + AllocGlobal>(
    rt: &R,
    control: &ControlFolder,
) -> io::Result<Option<String>> {
    match control.read(rt, Entry::Started)? {
        Some(started) => Ok(Some(started)),
        None => control.read(rt, Entry::Permit),
    }
}
