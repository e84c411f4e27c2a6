//! The hosts of a trial.
ghost use Rattle.std.specs.Prelude.{◌≡◌, IfOk, length};

use crate::orders::{Hosting, Outcome};
use model_text::Sequence;
use std::alloc::{AllocError, Global};
use task_host::{Bytes, Host, MemoryHost, Numbers, Order, Pairs, TaskOutcome, TaskOutcomes};

/// How many hosts a call has: one for each executor that a site may have.
const HOSTS: usize = 64;

/// What the hosts of a trial are and do.
#[derive(Drop)]
pub struct Workshop<'a> {
    /// What the tasks do.
    pub tasks: Vec<Outcome<'a>>,
    /// The tasks whose folders stand from the beginning.
    pub folders: Vec<u32>,
    /// How many hosts there are on which tasks do something.
    pub hosting: Hosting,
}

/// These hosts, and as many behind them as a call needs, on which no task ends. `AllocError` where the memory was
/// refused.
pub fn fill_up(alloc: Global, hosts: Vec<MemoryHost>) -> Result<Vec<MemoryHost>, AllocError>
    ensures { IfOk result (λ hosts. length hosts.items ≡ 64) }
{
    let mut hosts = hosts;
    hosts.truncate(HOSTS);
    for _ in hosts.len()..HOSTS {
        let none = TaskOutcomes::new(alloc);
        hosts.push(MemoryHost::new(alloc, Numbers::new(alloc), none))?;
    }
    Ok(hosts)
}

/// New hosts, each with all of these tasks. `AllocError` where the memory was refused.
pub fn make_hosts(alloc: Global, workshop: &Workshop<'_>) -> Result<Vec<MemoryHost>, AllocError> {
    let mut hosts = Vec::new(alloc);
    for _ in 0..workshop.hosting.count {
        let fail_at = Vec::from_slice(alloc, &[workshop.hosting.fails_at])?;
        let tasks = outcomes(alloc, &workshop.tasks)?;
        let mut host = MemoryHost::new(alloc, Numbers::from_vec(fail_at), tasks);
        for task in workshop.folders.iter() {
            let _ = host.make_dir(&folder_of(alloc, *task));
        }
        hosts.push(host)?;
    }
    Ok(hosts)
}

/// What tasks do, as a host has it. `AllocError` where the memory was refused.
fn outcomes(alloc: Global, tasks: &[Outcome<'_>]) -> Result<TaskOutcomes, AllocError> {
    let mut outcomes = Vec::new(alloc);
    for task in tasks {
        outcomes.push(outcome(alloc, task)?)?;
    }
    Ok(Sequence::from_vec(outcomes))
}

/// What a task does, as a host has it. `AllocError` where the memory was refused.
fn outcome(alloc: Global, task: &Outcome<'_>) -> Result<TaskOutcome, AllocError> {
    Ok(TaskOutcome {
        task: task.task,
        log: bytes_of(alloc, task.log, task.times)?,
        out: bytes_of(alloc, task.out, 1)?,
        running: task.looks,
        code: task.code,
    })
}

/// The bytes of a text so many times, in which `\n` stands for a newline. `AllocError` where the memory was refused.
fn bytes_of(alloc: Global, text: &str, times: u32) -> Result<Bytes, AllocError> {
    let mut bytes = Vec::new(alloc);
    for _ in 0..times {
        write_lines(text, &mut bytes)?;
    }
    Ok(Bytes::from_vec(bytes))
}

/// Writes a text, in which `\n` stands for a newline. `AllocError` where the memory was refused.
fn write_lines(text: &str, bytes: &mut Vec<u8>) -> Result<(), AllocError> {
    for (at, line) in text.split("\\n").enumerate() {
        if at > 0 {
            bytes.push(b'\n')?;
        }
        bytes.extend_from_slice(line.as_bytes())?;
    }
    Ok(())
}

/// The tasks that were launched, in order, each as often as it was. `AllocError` where the memory was refused.
pub fn launched(alloc: Global, hosts: &[MemoryHost]) -> Result<Vec<u32>, AllocError> {
    let mut tasks = Vec::new(alloc);
    for host in hosts {
        tasks.extend_from_slice(host.launches())?;
    }
    tasks.sort_unstable();
    Ok(tasks)
}

/// An order that names a task.
fn folder_of(alloc: Global, task: u32) -> Order {
    Order {
        task,
        executor: 0,
        workspace: Bytes::new(alloc),
        folder: Bytes::new(alloc),
        env: Pairs::new(alloc),
        script: Bytes::new(alloc),
        keep_out: false,
        kept_log: 0,
        kept_out: 0,
    }
}
