//! An honest host in memory.

ghost use Rattle.std.specs.Prelude.{◌≡◌, ◌⊎◌, ◌≤◌, ◌-◌, ◌↔◌, length, min, true, false, Contains, IfOk, IsErr, Some, [], option_map};
ghost use Rattle.device_faults.specs.Calls.{begun, NextFails, after_call, IsOneCall};
ghost use Rattle.device_faults.specs.Faults.{CountsFault};
ghost use Rattle.task_host.specs.Host.{MakesFolder, RemovesFolder, LaunchesAtMost, Launches, TellsState, Stays, GoesOn, Reads, HasRead, Records, bytes_read};
ghost use Rattle.task_host.specs.declared.memory.behavior.Behavior.TheVariants.{Listed, Echo};
ghost use Rattle.task_host.specs.Tasks.{unused, MakesDir, Starts, Looks, Removes};
ghost use Rattle.task_host.specs.MemoryHost.{tasks_of, counts_of, calls_of, output_of, exited_of};
ghost use Rattle.task_host.specs.MemoryHostLaws.{idle_before_launch};

use crate::{Call, Failed, Host, Look, Made, Numbers, Order, Started, Stream, TaskOutcomes};
use behavior::Behavior;
use calls::{keep, look_call, make_dir_call, read_call, remove_call, start_call};
use device_faults::FailingCalls;
use std::alloc::Global;
use tasks::Tasks;

mod behavior;
mod calls;
mod tasks;

/// A host in memory, which is honest.
///
/// A task that is launched writes all of its outcome's output at once, and ends after as many looks as the outcome says.
/// The calls of the listed numbers fail: they do nothing, count a fault, and say that they failed. Calls are numbered
/// from 1, pauses too; a pause does not fail. A start fails likewise where the task has no folder, and a call that
/// memory is refused to, which is counted apart. No other call fails: where the list of calls cannot grow, that list is
/// given up and the call goes on.
///
/// Handed to the next life of a controller, it keeps its folders, its launches and what its tasks do.
#[derive(Drop)]
pub struct MemoryHost {
    alloc: Global,
    tasks: Tasks,
    counts: FailingCalls,
    calls: Option<Vec<Call>>,
}

impl MemoryHost {
    /// A host with no folders and no launches, whose tasks do as these outcomes say, and on which the calls of these
    /// numbers fail.
    pub fn new(alloc: Global, fail_at: Numbers, outcomes: TaskOutcomes) -> MemoryHost
        ensures tasks { tasks_of result ≡ unused (Listed outcomes) }
        ensures counts { counts_of result ≡ begun fail_at }
        ensures calls { calls_of result ≡ Some [] }
    {
        MemoryHost {
            alloc,
            tasks: Tasks::new(alloc, Behavior::listed(outcomes)),
            counts: FailingCalls::new(fail_at.into_vec()),
            calls: Some(Vec::new(alloc)),
        }
    }

    /// The same with no failing call, on which each task writes `out T` and a newline to the log, T its number, and has
    /// ended with code 0 at the first look.
    pub fn echoing(alloc: Global) -> MemoryHost
        ensures tasks { tasks_of result ≡ unused Echo }
        ensures counts { counts_of result ≡ begun [] }
        ensures calls { calls_of result ≡ Some [] }
    {
        MemoryHost {
            alloc,
            tasks: Tasks::new(alloc, Behavior::Echo),
            counts: FailingCalls::new(Vec::new(alloc)),
            calls: Some(Vec::new(alloc)),
        }
    }

    /// The tasks whose folders stand.
    pub fn dirs(&self) -> &[u32]
        ensures { result.now ≡ (tasks_of self.now).dirs }
    {
        self.tasks.dirs()
    }

    /// The tasks that were launched, in order.
    pub fn launches(&self) -> &[u32]
        ensures { result.now ≡ (tasks_of self.now).launches }
    {
        self.tasks.launches()
    }

    /// The calls so far, or none where one could not be kept.
    pub fn calls(&self) -> Option<&[Call]>
        ensures { option_map (λ calls. calls.now) result ≡ calls_of self.now }
    {
        match &self.calls {
            Some(calls) => Some(calls.as_slice()),
            None => None,
        }
    }

    /// How many calls failed because memory for them was refused, up to `u64::MAX`.
    pub fn refused(&self) -> u64
        ensures { result ≡ (counts_of self.now).refused }
    {
        self.counts.refused()
    }
}

impl Host for MemoryHost {
    ghost honest = { λ host. Unit {0} };

    ghost dirs = { λ host. (tasks_of host).dirs };

    ghost launches = { λ host. (tasks_of host).launches };

    ghost output = { output_of };

    ghost exited = { exited_of };

    ghost calls = { calls_of };

    ghost faults = { λ host. (counts_of host).faults };

    ghost nothing_before_launch = { λ host task honest not_there. idle_before_launch (tasks_of host).launches (tasks_of host).behavior task not_there };

    /// As the trait says. Beside it, in each of these calls: it fails where it is listed, and else only where memory for
    /// it was refused (`one_call`), which a call that takes none never says (`only_listed`); and what it makes of folders
    /// and tasks is exact.
    fn make_dir(&mut self, order: &Order) -> Made
        ensures one_call { IsOneCall (NextFails (counts_of self.old)) (result ≡ Made.Failed) (counts_of self.old) (counts_of self.new) }
        ensures only_listed { Contains (tasks_of self.old).dirs order.now.task → result ≡ Made.Failed → NextFails (counts_of self.old) }
        ensures makes { MakesDir order.now.task (tasks_of self.old) (tasks_of self.new) result }

        ensures folder { MakesFolder order.now.task (tasks_of self.old).dirs (tasks_of self.new).dirs result }
        ensures launches { (tasks_of self.new).launches ≡ (tasks_of self.old).launches }
        ensures output { Stays (exited_of self.old) (exited_of self.new) (output_of self.old) (output_of self.new) }
        ensures calls { Records (calls_of self.old) (calls_of self.new) (Call.MakeDir order.now result) }
        ensures cause { CountsFault (counts_of self.old).faults (counts_of self.new).faults (result ≡ Made.Failed) }
    {
        let answer = self.tasks.make_dir(&mut self.counts, order.task);
        keep(&mut self.calls, make_dir_call(order, answer));
        answer
    }

    fn start(&mut self, order: &Order) -> Started
        ensures one_call { IsOneCall (NextFails (counts_of self.old) ⊎ (¬ Contains (tasks_of self.old).dirs order.now.task)) (result ≡ Started.Failed) (counts_of self.old) (counts_of self.new) }
        ensures starts { Starts order.now.task (tasks_of self.old) (tasks_of self.new) result }

        ensures launches { LaunchesAtMost order.now.task (tasks_of self.old).launches (tasks_of self.new).launches }
        ensures launched { Launches order.now.task (tasks_of self.old).dirs (tasks_of self.old).launches (tasks_of self.new).launches result }
        ensures folders { (tasks_of self.new).dirs ≡ (tasks_of self.old).dirs }
        ensures output { GoesOn order.now.task (exited_of self.old) (exited_of self.new) (output_of self.old) (output_of self.new) }
        ensures calls { Records (calls_of self.old) (calls_of self.new) (Call.Start order.now result) }
        ensures cause { CountsFault (counts_of self.old).faults (counts_of self.new).faults (result ≡ Started.Failed) }
    {
        let answer = self.tasks.start(&mut self.counts, order.task);
        keep(&mut self.calls, start_call(order, answer));
        answer
    }

    fn look(&mut self, order: &Order) -> Look
        ensures one_call { IsOneCall (NextFails (counts_of self.old)) (result ≡ Look.Failed) (counts_of self.old) (counts_of self.new) }
        ensures only_listed { result ≡ Look.Failed → NextFails (counts_of self.old) }
        ensures looks { Looks order.now.task (tasks_of self.old) (tasks_of self.new) result }

        ensures state { TellsState order.now.task (tasks_of self.old).dirs (tasks_of self.old).launches (exited_of self.old order.now.task) (exited_of self.new order.now.task) result }
        ensures launches { (tasks_of self.new).launches ≡ (tasks_of self.old).launches }
        ensures folders { (tasks_of self.new).dirs ≡ (tasks_of self.old).dirs }
        ensures output { GoesOn order.now.task (exited_of self.old) (exited_of self.new) (output_of self.old) (output_of self.new) }
        ensures calls { Records (calls_of self.old) (calls_of self.new) (Call.Look order.now result) }
        ensures cause { CountsFault (counts_of self.old).faults (counts_of self.new).faults (result ≡ Look.Failed) }
    {
        let answer = self.tasks.look(&mut self.counts, order.task);
        keep(&mut self.calls, look_call(order, answer));
        answer
    }

    fn read(
        &mut self,
        order: &Order,
        stream: Stream,
        from: u64,
        buf: &mut [u8],
    ) -> Result<usize, Failed>
        ensures one_call { IsOneCall (NextFails (counts_of self.old)) (IsErr result) (counts_of self.old) (counts_of self.new) }
        ensures only_listed { IsErr result → NextFails (counts_of self.old) }
        ensures all_there_is { IfOk result (λ n. n ≡ min (length buf.old) (length (output_of self.old order.now.task stream) - from)) }
        ensures same_tasks { tasks_of self.new ≡ tasks_of self.old }

        ensures room { IfOk result (λ n. n ≤ length buf.old) }
        ensures count { IfOk result (Reads (length (output_of self.new order.now.task stream)) from buf.old) }
        ensures bytes { IfOk result (λ n. HasRead (output_of self.new order.now.task stream) from n buf.old buf.new) }
        ensures launches { (tasks_of self.new).launches ≡ (tasks_of self.old).launches }
        ensures folders { (tasks_of self.new).dirs ≡ (tasks_of self.old).dirs }
        ensures output { GoesOn order.now.task (exited_of self.old) (exited_of self.new) (output_of self.old) (output_of self.new) }
        ensures calls { Records (calls_of self.old) (calls_of self.new) (Call.Read order.now stream from (length buf.old) (bytes_read result buf.new)) }
        ensures cause { CountsFault (counts_of self.old).faults (counts_of self.new).faults (IsErr result) }
    {
        let answer = self
            .tasks
            .read(&mut self.counts, order.task, stream, from, buf);
        let call = read_call(self.alloc, order, stream, from, buf, answer);
        keep(&mut self.calls, call);
        answer
    }

    fn pause(&mut self)
        ensures one_call { counts_of self.new ≡ after_call (counts_of self.old) }
        ensures same_tasks { tasks_of self.new ≡ tasks_of self.old }

        ensures launches { (tasks_of self.new).launches ≡ (tasks_of self.old).launches }
        ensures folders { (tasks_of self.new).dirs ≡ (tasks_of self.old).dirs }
        ensures output { Stays (exited_of self.old) (exited_of self.new) (output_of self.old) (output_of self.new) }
        ensures calls { Records (calls_of self.old) (calls_of self.new) Call.Pause }
        ensures calm { (counts_of self.new).faults ≡ (counts_of self.old).faults }
    {
        let _ = self.counts.next_fails();
        keep(&mut self.calls, Ok(Call::Pause));
    }

    fn remove(&mut self, order: &Order) -> Result<(), Failed>
        ensures one_call { IsOneCall (NextFails (counts_of self.old)) (IsErr result) (counts_of self.old) (counts_of self.new) }
        ensures only_listed { IsErr result → NextFails (counts_of self.old) }
        ensures removes { Removes order.now.task (tasks_of self.old) (tasks_of self.new) result }

        ensures folder { RemovesFolder order.now.task (tasks_of self.old).dirs (tasks_of self.new).dirs result }
        ensures launches { (tasks_of self.new).launches ≡ (tasks_of self.old).launches }
        ensures output { Stays (exited_of self.old) (exited_of self.new) (output_of self.old) (output_of self.new) }
        ensures calls { Records (calls_of self.old) (calls_of self.new) (Call.Remove order.now result) }
        ensures cause { CountsFault (counts_of self.old).faults (counts_of self.new).faults (IsErr result) }
    {
        let answer = self.tasks.remove(&mut self.counts, order.task);
        keep(&mut self.calls, remove_call(order, answer));
        answer
    }
}
