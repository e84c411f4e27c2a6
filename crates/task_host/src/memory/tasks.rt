//! The folders and tasks of a host in memory.

ghost use Rattle.std.specs.Prelude.{◌≡◌, ◌⊎◌, ◌≤◌, ◌-◌, length, min, Contains, IfOk, IsErr};
ghost use Rattle.device_faults.specs.Calls.{NextFails, IsOneCall};
ghost use Rattle.device_faults.specs.Faults.{CountsFault};
ghost use Rattle.task_host.specs.Host.{HasRead};
ghost use Rattle.task_host.specs.Tasks.{unused, is_launched, written_by, MakesDir, Starts, Looks, Removes};

use super::behavior::{Behavior, LONGEST_ECHO};
use crate::{Failed, Look, Made, Started, Stream};
use device_faults::FailingCalls;
use std::alloc::Global;
use std::marker::Model;

/// Folders that stand, launches in order, and what the tasks do.
#[derive(Drop)]
pub struct Tasks {
    dirs: Vec<u32>,
    launches: Vec<u32>,
    behavior: Behavior,
}

impl Model for Tasks {
    ghost use Rattle.task_host.specs.Tasks.{State};

    ghost Value = { State };

    ghost view = { λ t. record { dirs = t.dirs.items; launches = t.launches.items; behavior = t.behavior } };
}

impl Tasks {
    pub fn new(alloc: Global, behavior: Behavior) -> Tasks
        ensures { result ≡ unused behavior }
    {
        Tasks {
            dirs: Vec::new(alloc),
            launches: Vec::new(alloc),
            behavior,
        }
    }

    pub fn dirs(&self) -> &[u32]
        ensures { result.now ≡ self.now.dirs }
    {
        self.dirs.as_slice()
    }

    pub fn launches(&self) -> &[u32]
        ensures { result.now ≡ self.now.launches }
    {
        self.launches.as_slice()
    }

    pub fn make_dir(&mut self, counts: &mut FailingCalls, task: u32) -> Made
        ensures one_call { IsOneCall (NextFails counts.old) (result ≡ Made.Failed) counts.old counts.new }
        ensures only_listed { Contains self.old.dirs task → result ≡ Made.Failed → NextFails counts.old }
        ensures makes { MakesDir task self.old self.new result }
        ensures cause { CountsFault counts.old.faults counts.new.faults (result ≡ Made.Failed) }
    {
        if counts.next_fails() {
            counts.fail();
            return Made::Failed;
        }
        if self.dirs.contains(&task) {
            return Made::Exists;
        }
        if self.dirs.push(task).is_err() {
            counts.refuse();
            return Made::Failed;
        }
        Made::Made
    }

    pub fn start(&mut self, counts: &mut FailingCalls, task: u32) -> Started
        ensures one_call { IsOneCall (NextFails counts.old ⊎ (¬ Contains self.old.dirs task)) (result ≡ Started.Failed) counts.old counts.new }
        ensures starts { Starts task self.old self.new result }
        ensures cause { CountsFault counts.old.faults counts.new.faults (result ≡ Started.Failed) }
    {
        if counts.next_fails() {
            counts.fail();
            return Started::Failed;
        }
        if !self.dirs.contains(&task) {
            counts.fail();
            return Started::Failed;
        }
        if self.launches.push(task).is_err() {
            counts.refuse();
            return Started::Failed;
        }
        Started::Started
    }

    pub fn look(&mut self, counts: &mut FailingCalls, task: u32) -> Look
        ensures one_call { IsOneCall (NextFails counts.old) (result ≡ Look.Failed) counts.old counts.new }
        ensures only_listed { result ≡ Look.Failed → NextFails counts.old }
        ensures looks { Looks task self.old self.new result }
        ensures cause { CountsFault counts.old.faults counts.new.faults (result ≡ Look.Failed) }
    {
        if counts.next_fails() {
            counts.fail();
            return Look::Failed;
        }
        if !self.dirs.contains(&task) {
            return Look::Absent;
        }
        if !self.was_launched(task) {
            return Look::NotStarted;
        }
        self.behavior.look(task)
    }

    /// Reads what a task wrote from a place on, as much as there is and the buffer has room for.
    pub fn read(
        &self,
        counts: &mut FailingCalls,
        task: u32,
        stream: Stream,
        from: u64,
        buf: &mut [u8],
    ) -> Result<usize, Failed>
        ensures one_call { IsOneCall (NextFails counts.old) (IsErr result) counts.old counts.new }
        ensures only_listed { IsErr result → NextFails counts.old }
        ensures all_there_is { IfOk result (λ n. n ≡ min (length buf.old) (length (written_by self.now.launches self.now.behavior task stream) - from)) }
        ensures bytes { IfOk result (λ n. HasRead (written_by self.now.launches self.now.behavior task stream) from n buf.old buf.new) }
        ensures cause { CountsFault counts.old.faults counts.new.faults (IsErr result) }
    {
        if counts.next_fails() {
            return Err(counts.fail());
        }
        let mut line = [0; LONGEST_ECHO];
        Ok(copy(self.output(task, stream, &mut line), from, buf))
    }

    fn output<'a>(&'a self, task: u32, stream: Stream, line: &'a mut [u8; LONGEST_ECHO]) -> &'a [u8]
        ensures { result.now ≡ written_by self.now.launches self.now.behavior task stream }
    {
        if !self.was_launched(task) {
            return &[];
        }
        self.behavior.output(task, stream, line)
    }

    // Looked for from the last launch back, since a task that is asked for was mostly launched just now.
    fn was_launched(&self, task: u32) -> bool
        ensures { result ≡ is_launched task self.now.launches }
    {
        self.launches.iter().rev().any(|launch| *launch == task)
    }

    pub fn remove(&mut self, counts: &mut FailingCalls, task: u32) -> Result<(), Failed>
        ensures one_call { IsOneCall (NextFails counts.old) (IsErr result) counts.old counts.new }
        ensures only_listed { IsErr result → NextFails counts.old }
        ensures removes { Removes task self.old self.new result }
        ensures cause { CountsFault counts.old.faults counts.new.faults (IsErr result) }
    {
        if counts.next_fails() {
            return Err(counts.fail());
        }
        self.dirs.retain(|dir| *dir != task);
        Ok(())
    }
}

// Copies what stands from a place on, as much as there is room for.
fn copy(bytes: &[u8], from: u64, buf: &mut [u8]) -> usize
    ensures count { result ≡ min (length buf.old) (length bytes.now - from) }
    ensures bytes { HasRead bytes.now from result buf.old buf.new }
{
    if from >= bytes.len() as u64 {
        return 0;
    }
    let from = from as usize;
    let n = buf.len().min(bytes.len() - from);
    buf[..n].copy_from_slice(&bytes[from..from + n]);
    n
}
