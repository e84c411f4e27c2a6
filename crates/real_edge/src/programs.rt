//! The programs that start a task, found by the controller's own `PATH`.

use std::env::VarError;
use std::io::ErrorKind;
use std::os::unix::fs::PermissionsExt;
use std::rt::{Env, Files};
use std::{env, fs, io};

/// Where programs are looked for if the controller has no `PATH`, as C's `execvp` does.
const USUAL_PATH: &str = "/bin:/usr/bin";

/// Who may run a file: its owner, its group, all others.
const MAY_RUN: u32 = 0o111;

/// The programs that start a task.
#[derive(Drop)]
pub struct Programs {
    /// The path of `sh`.
    pub shell: String,
    /// The path of `mv`.
    pub mover: String,
    /// The path of `setsid`, which puts a program in a session of its own, where the system has it.
    pub setsid: Option<String>,
}

impl Programs {
    /// Those to which the controller's own `PATH` leads.
    ///
    /// # Errors
    ///
    /// Where there is no `sh` or no `mv`, where `PATH` is not UTF-8, and where there is no memory.
    pub fn of_controller<R: Files + Env + AllocGlobal>(rt: &R) -> io::Result<Programs> {
        let path = own_path(rt)?;
        let Some(shell) = find(rt, path.as_str(), "sh")? else {
            return Err(io::Error::new(ErrorKind::NotFound, "no sh in the PATH of the controller"));
        };
        let Some(mover) = find(rt, path.as_str(), "mv")? else {
            return Err(io::Error::new(ErrorKind::NotFound, "no mv in the PATH of the controller"));
        };
        Ok(Programs {
            shell,
            mover,
            setsid: session_program(rt)?,
        })
    }
}

/// The program `setsid`, which puts a program in a session of its own. `None` where the system has none.
///
/// # Errors
///
/// Where the controller's `PATH` is not UTF-8, and where there is no memory.
pub fn session_program<R: Files + Env + AllocGlobal>(rt: &R) -> io::Result<Option<String>> {
    let path = own_path(rt)?;
    find(rt, path.as_str(), "setsid")
}

fn own_path<R: Env + AllocGlobal>(rt: &R) -> io::Result<String> {
    match env::var(rt, "PATH") {
        Ok(path) => Ok(path),
        Err(VarError::NotPresent) => Ok(String::from_str(rt.alloc(), USUAL_PATH)?),
        Err(VarError::NotUnicode) => Err(io::Error::new(
            ErrorKind::InvalidData,
            "the PATH of the controller is not UTF-8",
        )),
        Err(VarError::OutOfMemory) => Err(io::Error::from(ErrorKind::OutOfMemory)),
    }
}

/// The first program of this name in the folders of a `PATH`. Those that do not begin with `/` are passed over: a task
/// runs in a folder of its own, where they would mean another place.
///
/// # Errors
///
/// Where there is no memory.
pub fn find<R: Files + AllocGlobal>(rt: &R, path: &str, name: &str) -> io::Result<Option<String>> {
    for folder in path.split(':') {
        if folder.starts_with('/') {
            let program = format!(in rt.alloc(); "{folder}/{name}")?;
            if is_program(rt, program.as_str()) {
                return Ok(Some(program));
            }
        }
    }
    Ok(None)
}

/// Whether there is a file at a path, and somebody may run it.
pub fn is_program(files: &impl Files, path: &str) -> bool {
    match fs::metadata(files, path) {
        Ok(found) => found.is_file() && found.permissions().mode() & MAY_RUN != 0,
        Err(_) => false,
    }
}
