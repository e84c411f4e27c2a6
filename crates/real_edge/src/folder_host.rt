//! A host over real control folders.

ghost use Rattle.std.specs.Prelude.{◌≡◌, ◌≢◌, ◌⊎◌, ◌↔◌, ◌≤◌, ◌<◌, ◌*◌, suc, min, [], false, None, length, Contains, IfOk, IsOk, IsErr, IsTrue, MatchResult};
ghost use Rattle.device_faults.specs.Faults.{CountsFault};
ghost use Rattle.control_folders.specs.Control.{is_own_workspace};
ghost use Rattle.real_edge.specs.FolderHost.{StartsTask, PauseAfterLook, pause_after_start};
ghost use Rattle.real_edge.specs.Launches.{AsksOnce, AsksTwice, OneFailed, one_handed_over};
ghost use Rattle.real_edge.specs.OwnFolders.{forgotten, MakesOwn, RemovesOwn};

use crate::build_place::BuildPlace;
use crate::elsewhere::Elsewhere;
use crate::launcher::Launcher;
use crate::local_tasks::LocalTasks;
use crate::loss::Loss;
use crate::own_folders::OwnFolders;
use crate::pauses::Pauses;
use crate::workspace::check_workspace;
use control_folders::{ControlFolder, Fate, Making, fate_of, may_run, text};
use device_faults::{Failed, Faults};
use edge_files::DurableFolder;
use std::marker::Model;
use std::process::Processes;
use std::rt::{Env, Files};
use std::time::{Clock, Duration};
use std::{io, thread};
use task_host::{Host, Look, Made, Order, Started, Stream};

/// A host whose tasks are processes of this machine, or of another one where the agent has a program `launch`. Each task has
/// a control folder, whose files docs/HOSTS.md tells.
///
/// Each folder names its build. One of another build, or of none, is never taken for the task's: `make_dir` makes it anew,
/// or fails where that one's task may be running; to the other calls there is no folder but those of which `make_dir` said
/// that they are there. A folder of this build whose task was certainly not started is made anew too.
///
/// Why a task was not launched, and why one is lost, is said on standard error, since the build's log has only its code.
///
/// It tells contracts which folders it takes for the build's own, how many processes it keeps, how often it called the
/// programs of agents, how long it pauses next, and its faults: no contract can say what a folder or a process does.
#[derive(Drop)]
pub struct FolderHost<'a, R: Processes> {
    rt: &'a R,
    place: BuildPlace<'a>,
    own: OwnFolders,
    tasks: LocalTasks<R::Started>,
    elsewhere: Elsewhere,
    pauses: Pauses,
    faults: Faults,
    parent: DurableFolder,
}

impl<'a, R: Processes> Model for FolderHost<'a, R> {
    ghost use Rattle.std.specs.Prelude.{vec_len};
    ghost use Rattle.real_edge.specs.FolderHost.{HostState};

    ghost Value = { HostState };

    ghost view = { λ host. record { own = host.own.tasks.items; unreaped = vec_len host.tasks.children.unreaped; launches = host.elsewhere.launches; next_pause = host.pauses; faults = host.faults } };
}

impl<'a, R: Files + Env + AllocGlobal + Eprint + Clock + Processes> FolderHost<'a, R> {
    /// A host over the folders and processes of `rt`, for the build that has its identity in the file at this path. It has
    /// no folder, and no call has failed.
    pub fn new(rt: &'a R, identity_file: &'a str) -> Self
        ensures { result ≡ record { own = []; unreaped = 0; launches = record { handed_over = 0; failed = 0; asked = 0 }; next_pause = 1; faults = 0 } }
    {
        FolderHost {
            rt,
            place: BuildPlace::new(identity_file),
            own: OwnFolders::new(rt.alloc()),
            tasks: LocalTasks::new(rt.alloc()),
            elsewhere: Elsewhere::new(),
            pauses: Pauses::new(),
            faults: Faults::new(),
            parent: DurableFolder::new(),
        }
    }

    /// Whether there is no pause any more: the task at hand cannot come back.
    pub fn pauses_are_over(&self) -> bool
        ensures { IsTrue result ↔ (self.now.next_pause ≡ 0) }
    {
        self.pauses.are_over()
    }

    // Makes the control folder, or finds that the build's own is there.
    fn make(&mut self, order: &Order) -> io::Result<Made>
        ensures made { MatchResult result (λ made. made ≢ Made.Failed × MakesOwn order.now.task self.old.own self.new.own made) (λ _. self.new.own ≡ self.old.own) }
        ensures workspace { is_own_workspace order.now.workspace ≡ false → IsErr result }
        ensures unreaped { self.new.unreaped ≡ self.old.unreaped }
        ensures launches { AsksTwice self.old.launches self.new.launches }
        ensures pause { self.new.next_pause ≡ self.old.next_pause }
        ensures calm { self.new.faults ≡ self.old.faults }
    {
        check_workspace(order)?;
        let control = ControlFolder::of(self.rt.alloc(), order)?;
        self.own.reserve()?;
        self.parent.make(self.rt, control.parent.as_str())?;
        let mut making = self.place.make_folder(self.rt, order, &control)?;
        if making == Making::Elsewhere {
            self.elsewhere.clear(self.rt, order, &control)?;
            making = self.place.make_folder(self.rt, order, &control)?;
        }
        let made = match making {
            Making::Made => Made::Made,
            Making::Kept => Made::Exists,
            Making::Elsewhere => return Err(may_run()),
        };
        self.own.add(order.task);
        Ok(made)
    }

    // Starts the task: by its agent's program where that has one, else as a process, which is kept.
    fn launch(&mut self, order: &Order) -> io::Result<()>
        ensures own { IfOk result (λ _. Contains self.old.own order.now.task) }
        ensures same { (self.new.own ≡ self.old.own) × (self.new.next_pause ≡ self.old.next_pause) × (self.new.faults ≡ self.old.faults) }
        ensures kept { MatchResult result (λ _. StartsTask self.old self.new Started.Started) (λ _. StartsTask self.old self.new Started.Failed) }
    {
        if !self.own.contains(order.task) {
            return Err(io::Error::new(io::ErrorKind::NotFound, "its control folder was not made"));
        }
        match Launcher::of(self.rt, order)? {
            Some(launcher) => self.elsewhere.start(self.rt, order, &launcher),
            None => self.tasks.start(self.rt, order),
        }
    }

    fn read_own(
        &self,
        order: &Order,
        stream: Stream,
        from: u64,
        buf: &mut [u8],
    ) -> io::Result<usize>
        ensures room { IfOk result (λ n. n ≤ length buf.old) }
        ensures foreign { ¬ Contains self.now.own order.now.task → result ≡ Ok 0 }
    {
        if !self.own.contains(order.task) {
            return Ok(0);
        }
        control_folders::read(self.rt, order, stream, from, buf)
    }

    fn state(&self, order: &Order) -> io::Result<Look>
        ensures told { IfOk result (λ state. state ≢ Look.Failed) }
        ensures foreign { ¬ Contains self.now.own order.now.task → result ≡ Ok Look.Absent }
    {
        if !self.own.contains(order.task) {
            return Ok(Look::Absent);
        }
        control_folders::state(self.rt, order)
    }

    // A folder that is not the build's own is left alone.
    fn remove_own(&mut self, order: &Order) -> io::Result<()>
        ensures own { MatchResult result (λ _. self.new ≡ record self.old { own = forgotten order.now.task self.old.own }) (λ _. self.new ≡ self.old) }
        ensures foreign { ¬ Contains self.old.own order.now.task → IsOk result }
    {
        if self.own.contains(order.task) {
            let control = ControlFolder::of(self.rt.alloc(), order)?;
            control_folders::remove(self.rt, &control)?;
        }
        self.own.forget(order.task);
        Ok(())
    }

    // Ends the pauses where the task, which seems to run, is known not to come back.
    fn judge(&mut self, order: &Order)
        ensures own { self.new.own ≡ self.old.own }
        ensures unreaped { self.new.unreaped ≡ self.old.unreaped }
        ensures launches { AsksOnce self.old.launches self.new.launches }
        ensures pause { (self.new.next_pause ≡ self.old.next_pause) ⊎ ((self.old.next_pause ≡ 250) × (self.new.next_pause ≡ 0)) }
        ensures calm { self.new.faults ≡ self.old.faults }
    {
        if !self.pauses.is_longest() {
            return;
        }
        if let Ok(Some(loss)) = self.loss(order) {
            self.tell_loss(order, loss);
            self.pauses.end();
        }
    }

    fn loss(&mut self, order: &Order) -> io::Result<Option<Loss>>
        ensures same { self.new ≡ record self.old { launches = self.new.launches } }
        ensures launches { AsksOnce self.old.launches self.new.launches }
    {
        let control = ControlFolder::of(self.rt.alloc(), order)?;
        let known = self.place.known(self.rt)?;
        match fate_of(self.rt, &control, &known.machine)? {
            Fate::Elsewhere => self.elsewhere.loss(self.rt, order),
            fate => Ok(self.tasks.loss(fate)),
        }
    }

    // Says why a task was not launched.
    fn tell(&self, order: &Order, reason: &io::Error) {
        let task = order.task;
        let workspace = text(order.workspace.as_slice()).unwrap_or("a workspace");
        let _ = eprintln!(self.rt;
            "controller: task {task} in {workspace} was not launched: {reason}"
        );
    }

    // Says why a task is lost.
    fn tell_loss(&self, order: &Order, loss: Loss) {
        let task = order.task;
        let workspace = text(order.workspace.as_slice()).unwrap_or("a workspace");
        let _ = eprintln!(self.rt; "controller: task {task} in {workspace} is lost: {loss}");
    }
}

impl<R: Files + Env + AllocGlobal + Eprint + Clock + Processes> Host for FolderHost<'_, R> {
    ghost honest = { λ _. ⊥ };

    ghost dirs = { λ _. [] };

    ghost launches = { λ _. [] };

    ghost output = { λ _ _ _. [] };

    ghost exited = { λ _ _. None };

    ghost calls = { λ _. None };

    ghost faults = { λ host. host.faults };

    ghost nothing_before_launch = { λ _ _ honest _. absurd honest };

    /// As the trait says. Beside it, in each of these calls: which folders are the build's own from then on (`own`), that
    /// to a call there is no folder but the build's own (`foreign`), how many processes are kept (`unreaped`), how often
    /// programs of agents were called (`launches`), and how long the next pause is (`pause`). It fails, and makes no folder,
    /// where the workspace is no folder of its own (`workspace`).
    fn make_dir(&mut self, order: &Order) -> Made
        ensures own { MakesOwn order.now.task self.old.own self.new.own result }
        ensures workspace { is_own_workspace order.now.workspace ≡ false → result ≡ Made.Failed }
        ensures unreaped { self.new.unreaped ≡ self.old.unreaped }
        ensures launches { AsksTwice self.old.launches self.new.launches }
        ensures pause { self.new.next_pause ≡ 1 }
        ensures cause { CountsFault self.old.faults self.new.faults (result ≡ Made.Failed) }
    {
        self.pauses = Pauses::new();
        self.tasks.begin();
        self.elsewhere.begin();
        match self.make(order) {
            Ok(made) => made,
            Err(reason) => {
                self.tell(order, &reason);
                self.faults.rise();
                Made::Failed
            }
        }
    }

    fn start(&mut self, order: &Order) -> Started
        ensures own { self.new.own ≡ self.old.own }
        ensures foreign { ¬ Contains self.old.own order.now.task → result ≡ Started.Failed }
        ensures task { StartsTask self.old self.new result }
        ensures pause { self.new.next_pause ≡ pause_after_start self.old.next_pause result }
        ensures cause { CountsFault self.old.faults self.new.faults (result ≡ Started.Failed) }
    {
        self.tasks.children.reap();
        match self.launch(order) {
            Ok(()) => {
                self.pauses = Pauses::new();
                Started::Started
            }
            Err(reason) => {
                self.tell(order, &reason);
                self.faults.rise();
                Started::Failed
            }
        }
    }

    fn look(&mut self, order: &Order) -> Look
        ensures own { self.new.own ≡ self.old.own }
        ensures foreign { ¬ Contains self.old.own order.now.task → result ≡ Look.Absent }
        ensures unreaped { self.new.unreaped ≤ self.old.unreaped }
        ensures launches { AsksOnce self.old.launches self.new.launches }
        ensures pause { PauseAfterLook self.old.next_pause self.new.next_pause result }
        ensures cause { CountsFault self.old.faults self.new.faults (result ≡ Look.Failed) }
    {
        self.tasks.children.reap();
        match self.state(order) {
            Ok(Look::Running) => {
                self.judge(order);
                Look::Running
            }
            Ok(state) => state,
            Err(_) => {
                self.faults.rise();
                Look::Failed
            }
        }
    }

    fn read(
        &mut self,
        order: &Order,
        stream: Stream,
        from: u64,
        buf: &mut [u8],
    ) -> Result<usize, Failed>
        ensures own { self.new.own ≡ self.old.own }
        ensures foreign { ¬ Contains self.old.own order.now.task → result ≡ Ok 0 }
        ensures unreaped { self.new.unreaped ≡ self.old.unreaped }
        ensures launches { self.new.launches ≡ self.old.launches }
        ensures pause { self.new.next_pause ≡ self.old.next_pause }

        ensures room { IfOk result (λ n. n ≤ length buf.old) }
        ensures cause { CountsFault self.old.faults self.new.faults (IsErr result) }
    {
        match self.read_own(order, stream, from, buf) {
            Ok(count) => Ok(count),
            Err(_) => Err(self.faults.rise()),
        }
    }

    fn pause(&mut self)
        ensures own { self.new.own ≡ self.old.own }
        ensures unreaped { self.new.unreaped ≤ self.old.unreaped }
        ensures launches { self.new.launches ≡ self.old.launches }
        ensures pause { self.new.next_pause ≡ min (2 * self.old.next_pause) 250 }
        ensures calm { self.new.faults ≡ self.old.faults }
    {
        self.tasks.children.reap();
        let pause = self.pauses.take();
        if pause > 0 {
            thread::sleep(self.rt, Duration::from_millis(pause));
        }
    }

    fn remove(&mut self, order: &Order) -> Result<(), Failed>
        ensures own { RemovesOwn order.now.task self.old.own self.new.own result }
        ensures unreaped { self.new.unreaped ≤ self.old.unreaped }
        ensures foreign { ¬ Contains self.old.own order.now.task → IsOk result }
        ensures launches { self.new.launches ≡ self.old.launches }
        ensures pause { self.new.next_pause ≡ self.old.next_pause }
        ensures cause { CountsFault self.old.faults self.new.faults (IsErr result) }
    {
        self.tasks.children.reap_soon(self.rt);
        match self.remove_own(order) {
            Ok(()) => Ok(()),
            Err(_) => Err(self.faults.rise()),
        }
    }
}
