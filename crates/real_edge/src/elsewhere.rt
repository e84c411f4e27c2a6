//! Tasks that a program of their agent starts elsewhere.

ghost use Rattle.std.specs.Prelude.{◌≡◌};
ghost use Rattle.real_edge.specs.Launches.{StartsElsewhere, AsksOnce, AsksTwice};

use crate::asks::Asks;
use crate::launcher::Launcher;
use crate::launches::Launches;
use crate::loss::Loss;
use control_folders::{ControlFolder, Entry, discard, may_run, state, task_script, withdraw};
use edge_files::private::{create_file, create_program, open_or_create};
use edge_files::sync::sync_folder;
use std::io::{ErrorKind, Write};
use std::process::Processes;
use std::rt::{Env, Files};
use std::time::{Clock, Duration};
use std::{fs, io, thread};
use task_host::{Look, Order};

/// The tasks of one host that programs of their agents start elsewhere. A host has one task at a time.
#[derive(Drop)]
pub struct Elsewhere {
    pub launches: Launches,
    asks: Asks,
}

impl Elsewhere {
    /// No program was called.
    pub fn new() -> Self
        ensures { result.launches ≡ record { handed_over = 0; failed = 0; asked = 0 } }
    {
        Elsewhere {
            launches: Launches::none(),
            asks: Asks::new(),
        }
    }

    /// Another task is at hand, of which nothing is known.
    pub fn begin(&mut self)
        ensures same { self.new.launches ≡ self.old.launches }
    {
        self.asks = Asks::new();
    }

    /// Hands the task at hand over to its agent's program, once. Where that fails the permit is withdrawn: what was handed
    /// over all the same, and comes late, runs nothing.
    ///
    /// # Errors
    ///
    /// Where something of its control folder cannot be written or synced, where the program cannot be started, does not end
    /// within a minute, or ends with another code than 0; and where there is no memory.
    pub fn start<R: Files + Env + AllocGlobal + Clock + Processes>(
        &mut self,
        rt: &R,
        order: &Order,
        launcher: &Launcher,
    ) -> io::Result<()>
        ensures launched { StartsElsewhere self.old.launches self.new.launches result }
    {
        let control = ControlFolder::of(rt.alloc(), order)?;
        match self.hand_over(rt, order, launcher, &control) {
            Err(_) if !gives_up(rt, &control) => Err(may_have_begun()),
            answer => answer,
        }
    }

    // Writes what the program hands over, and calls it.
    fn hand_over<R: Files + Env + AllocGlobal + Clock + Processes>(
        &mut self,
        rt: &R,
        order: &Order,
        launcher: &Launcher,
        control: &ControlFolder,
    ) -> io::Result<()>
        ensures launched { StartsElsewhere self.old.launches self.new.launches result }
        ensures asks { self.new.asks ≡ self.old.asks }
    {
        prepare(rt, order, control)?;
        self.launches.hand_over(rt, launcher, control.path.as_str())
    }

    /// Why the task at hand, which has no result, can leave none any more. `None` where it may, as far as is known. Its
    /// agent's program is asked at some of the looks; a result that came meanwhile counts.
    ///
    /// # Errors
    ///
    /// Where the order's paths are not UTF-8, and where there is no memory.
    pub fn loss<R: Files + Env + AllocGlobal + Clock + Processes>(
        &mut self,
        rt: &R,
        order: &Order,
    ) -> io::Result<Option<Loss>>
        ensures asked { AsksOnce self.old.launches self.new.launches }
    {
        if !self.asks.is_due() {
            return Ok(None);
        }
        let control = ControlFolder::of(rt.alloc(), order)?;
        let says_gone = match Launcher::of(rt, order) {
            Ok(Some(launcher)) => self.launches.are_gone(rt, &launcher, control.path.as_str()),
            Ok(None) | Err(_) => false,
        };
        let _ = refresh(rt, &control);
        let is_gone = says_gone && matches!(state(rt, order), Ok(Look::Running));
        Ok(self.asks.take(is_gone).then_some(Loss::GoneElsewhere))
    }

    /// Takes away the folder of another build's task that was started elsewhere and has no result, where its agent's program
    /// says twice, a second apart, that the task is gone.
    ///
    /// # Errors
    ///
    /// Where it does not say so; where the folder cannot be removed; and where there is no memory.
    pub fn clear<R: Files + Env + AllocGlobal + Clock + Processes>(
        &mut self,
        rt: &R,
        order: &Order,
        control: &ControlFolder,
    ) -> io::Result<()>
        ensures asked { AsksTwice self.old.launches self.new.launches }
    {
        let Some(launcher) = Launcher::of(rt, order)? else {
            return Err(may_run());
        };
        let folder = control.path.as_str();
        if !self.launches.are_gone(rt, &launcher, folder) {
            return Err(may_run());
        }
        thread::sleep(rt, Duration::from_secs(1));
        if !self.launches.are_gone(rt, &launcher, folder) {
            return Err(may_run());
        }
        discard(rt, control)
    }
}

// Writes what the program hands over. The empty log says from then on that the task was started. What is in the folder is on
// the disk before the program is called: a task that was started is not taken, after a power cut, for one that was not, nor
// for another build's.
fn prepare<R: Files + AllocGlobal>(
    rt: &R,
    order: &Order,
    control: &ControlFolder,
) -> io::Result<()> {
    let script = task_script(rt.alloc(), order, control)?;
    create_program(rt, control.entry(rt.alloc(), Entry::Task)?.as_str())?.write_all(
        script.as_slice(),
    )?;
    open_or_create(rt, control.entry(rt.alloc(), Entry::Log)?.as_str())?;
    sync_folder(rt, control.path.as_str())
}

// On a file system of several machines a name that was looked for in vain may stay hidden for a while. A change of its folder
// by this machine ends that. A controller that was killed in between has left the file.
fn refresh<R: Files + AllocGlobal>(rt: &R, control: &ControlFolder) -> io::Result<()> {
    let path = control.entry(rt.alloc(), Entry::Asked)?;
    let made = create_file(rt, path.as_str());
    fs::remove_file(rt, path.as_str())?;
    made?;
    Ok(())
}

// Withdraws the permit of a task that could not be handed over, and says whether that is done: then it was not started, and
// has no log.
fn gives_up<R: Files + AllocGlobal>(rt: &R, control: &ControlFolder) -> bool {
    let is_withdrawn = matches!(withdraw(rt, control), Ok(true));
    if is_withdrawn {
        let _ = remove_log(rt, control);
    }
    is_withdrawn
}

// Why the start of a task failed whose permit is taken, or could not be withdrawn.
fn may_have_begun() -> io::Error {
    io::Error::new(
        ErrorKind::Other,
        "its agent's launch failed, and its permit could not be withdrawn: it may run on",
    )
}

fn remove_log<R: Files + AllocGlobal>(rt: &R, control: &ControlFolder) -> io::Result<()> {
    fs::remove_file(rt, control.entry(rt.alloc(), Entry::Log)?.as_str())
}
