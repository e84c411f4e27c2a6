//! Tasks as processes of this machine: how one is started, and whether it can still come back.

ghost use Rattle.std.specs.Prelude.{◌≡◌, [], suc, OnOk, OnErr, vec_len};

use crate::children::Children;
use crate::launch::spawn;
use crate::loss::{Ends, Loss};
use crate::programs::Programs;
use control_folders::{ControlFolder, Entry, Fate, text};
use edge_files::private::open_or_create;
use edge_files::sync::sync_folder;
use std::alloc::Global;
use std::io::ErrorKind;
use std::process::{Child, OpenProcess, Processes};
use std::rt::{Env, Files};
use std::{fs, io};
use task_host::Order;

/// The tasks of one host, each a process of this machine. A host has one task at a time.
#[derive(Drop)]
pub struct LocalTasks<P: OpenProcess> {
    pub children: Children<P>,
    // The number of the process that was started for the task at hand.
    child: Option<u32>,
    ends: Ends,
}

impl<P: OpenProcess + Drop> LocalTasks<P> {
    /// None was started.
    pub fn new(alloc: Global) -> Self
        ensures { result.children.unreaped.items ≡ [] }
    {
        LocalTasks {
            children: Children::new(alloc),
            child: None,
            ends: Ends::none(),
        }
    }

    /// Another task is at hand, of which nothing is known.
    pub fn begin(&mut self)
        ensures same { self.new.children ≡ self.old.children }
    {
        self.child = None;
        self.ends = Ends::none();
    }

    /// Starts the task at hand, and keeps its process.
    ///
    /// # Errors
    ///
    /// Where it was started before, those of [`launch`], and where there is no memory. No process is kept then.
    pub fn start<R: Files + Env + AllocGlobal + Processes<Started = P>>(
        &mut self,
        rt: &R,
        order: &Order,
    ) -> io::Result<()>
        ensures kept { OnOk result (vec_len self.new.children.unreaped ≡ suc (vec_len self.old.children.unreaped)) }
        ensures none { OnErr result (vec_len self.new.children.unreaped ≡ vec_len self.old.children.unreaped) }
    {
        if self.child.is_some() {
            return Err(io::Error::new(ErrorKind::AlreadyExists, "its process was started before"));
        }
        self.children.reserve()?;
        let child = launch(rt, order)?;
        self.child = Some(child.id());
        self.children.keep(child);
        Ok(())
    }

    /// Why the task at hand, which has no result and of whose process this is known, can leave none any more. `None` where it
    /// may, as far as is known.
    pub fn loss(&mut self, fate: Fate) -> Option<Loss>
        ensures same { self.new.children ≡ self.old.children }
    {
        let has_ended = match self.child {
            Some(number) => !self.children.contains(number),
            None => false,
        };
        self.ends.loss(fate, has_ended)
    }
}

/// Makes the log, which says from then on that the task was started, and starts its process. Where that fails, the log
/// goes again. A process of an earlier life that came late may have taken the permit and made the log; it is kept then.
///
/// # Errors
///
/// Where the log cannot be made, and where the process cannot be started.
fn launch<R: Files + Env + AllocGlobal + Processes>(
    rt: &R,
    order: &Order,
) -> io::Result<Child<R::Started>> {
    let control = ControlFolder::of(rt.alloc(), order)?;
    let log = control.entry(rt.alloc(), Entry::Log)?;
    fs::create_dir_all(rt, text(order.folder.as_slice())?)?;
    open_or_create(rt, log.as_str())?;
    let child = start_process(rt, order, &control);
    if child.is_err() {
        let _ = fs::remove_file(rt, log.as_str());
    }
    child
}

// What is in the folder is on the disk before the process starts: a task that was started is not taken, after a power cut,
// for one that was not, nor for another build's.
fn start_process<R: Files + Env + AllocGlobal + Processes>(
    rt: &R,
    order: &Order,
    control: &ControlFolder,
) -> io::Result<Child<R::Started>> {
    let programs = Programs::of_controller(rt)?;
    sync_folder(rt, control.path.as_str())?;
    spawn(rt, rt.alloc(), &programs, order, control)
}
