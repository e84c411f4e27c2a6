//! The program of an agent that starts its tasks elsewhere.

use crate::programs::{is_program, session_program};
use control_folders::text;
use std::io::ErrorKind;
use std::process::{Child, Command, OpenProcess, Processes, Stdio};
use std::rt::{Env, Files};
use std::time::{Clock, Duration};
use std::{fs, io, thread};
use task_host::Order;

/// What such a program is asked to do.
#[derive(Clone, Copy, Debug, PartialEq, Eq)]
pub enum Ask {
    /// To start the task of a control folder.
    Start,
    /// To tell whether anything that it started for a control folder lives, or waits in a queue.
    Alive,
    /// To end whatever it started for a control folder.
    Stop,
}

impl Ask {
    fn word(self) -> &'static str {
        match self {
            Ask::Start => "start",
            Ask::Alive => "alive",
            Ask::Stop => "stop",
        }
    }

    /// How long it may take, in looks at its process.
    fn looks(self) -> u32 {
        match self {
            Ask::Start | Ask::Stop => 60 * LOOKS_A_SECOND,
            Ask::Alive => 5 * LOOKS_A_SECOND,
        }
    }

    /// Where its standard error goes. To ask whether a task lives is no event, so what it says then is not shown.
    fn error_stream(self) -> Stdio {
        match self {
            Ask::Start | Ask::Stop => Stdio::inherit(),
            Ask::Alive => Stdio::null(),
        }
    }
}

/// How often a second it is looked whether the process has ended.
const LOOKS_A_SECOND: u32 = 100;

/// The pause between two such looks, in milliseconds.
const PAUSE: u64 = 10;

/// The program `launch` in the root of an agent.
#[derive(Drop)]
pub struct Launcher {
    root: String,
    program: String,
}

impl Launcher {
    /// That of the agent which has the order's workspace. `None` where that agent's root has nothing of the name `launch`.
    ///
    /// # Errors
    ///
    /// Where `launch` is no program that somebody may run: a bit that was lost does not move the agent's tasks to this machine.
    /// Where the system does not tell; where the workspace is not UTF-8; and where there is no memory.
    pub fn of<R: Files + AllocGlobal>(rt: &R, order: &Order) -> io::Result<Option<Launcher>> {
        let Some(root) = root_of(text(order.workspace.as_slice())?) else {
            return Ok(None);
        };
        let program = format!(in rt.alloc(); "{root}/launch")?;
        if !is_program(rt, program.as_str()) {
            return none_there(rt, program.as_str());
        }
        let root = String::from_str(rt.alloc(), root)?;
        Ok(Some(Launcher { root, program }))
    }

    /// Asks it this of a control folder, and answers its exit code. `None` where a signal ended it, as at the end of the time
    /// that it may take.
    ///
    /// # Errors
    ///
    /// Where it cannot be started or waited for, and where there is no memory.
    pub fn ask<R: Files + Env + AllocGlobal + Clock + Processes>(
        &self,
        rt: &R,
        ask: Ask,
        folder: &str,
    ) -> io::Result<Option<i32>> {
        let mut child = self.start(rt, ask, folder)?;
        for _ in 0..ask.looks() {
            if let Some(status) = child.try_wait()? {
                return Ok(status.code());
            }
            thread::sleep(rt, Duration::from_millis(PAUSE));
        }
        child.kill()?;
        Ok(child.wait()?.code())
    }

    // Starts it, in a session of its own where the system has `setsid`: what it leaves is not reached by an interrupt of the
    // controller.
    fn start<R: Files + Env + AllocGlobal + Processes>(
        &self,
        rt: &R,
        ask: Ask,
        folder: &str,
    ) -> io::Result<Child<R::Started>> {
        let program = self.program.as_str();
        if let Some(setsid) = session_program(rt)? {
            let mut command = Command::new(rt.alloc(), setsid.as_str())?;
            command.arg(program)?;
            if let Ok(child) = self.spawn(rt, command, ask, folder) {
                return Ok(child);
            }
        }
        let command = Command::new(rt.alloc(), program)?;
        self.spawn(rt, command, ask, folder)
    }

    fn spawn<R: Processes>(
        &self,
        rt: &R,
        mut command: Command,
        ask: Ask,
        folder: &str,
    ) -> io::Result<Child<R::Started>> {
        command.arg(ask.word())?.arg(folder)?;
        command.current_dir(self.root.as_str())?;
        command.stdin(Stdio::null());
        command.stdout(Stdio::null());
        command.stderr(ask.error_stream());
        command.spawn(rt)
    }
}

// The root of the agent that has this workspace. `None` where it is no workspace of an agent.
fn root_of(workspace: &str) -> Option<&str> {
    let (folder, _) = workspace.rsplit_once('/')?;
    folder.strip_suffix("/workspace")
}

// That there is nothing of this name, which is no program.
fn none_there<R: Files>(rt: &R, program: &str) -> io::Result<Option<Launcher>> {
    match fs::symlink_metadata(rt, program) {
        Ok(_) => Err(io::Error::new(
            ErrorKind::PermissionDenied,
            "its agent's launch is there, and nobody may run it",
        )),
        Err(error) => match error.kind() {
            ErrorKind::NotFound => Ok(None),
            _ => Err(error),
        },
    }
}
