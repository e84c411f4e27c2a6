//! Calls of the controller over devices in memory.
ghost use Rattle.std.specs.Prelude.{◌≡◌, length};

use crate::hosts::fill_up;
use crate::orders::{Command, Device, Fault, Stretch};
use crate::stretched::StretchedDisk;
use controller::controller;
use jp_disk::{Bytes, Disk, MemoryDisk, Numbers};
use jp_io::{MemorySink, MemorySource};
use saved_thread::SavedThread;
use std::alloc::{AllocError, Global};
use std::sync::Wait;
use std::thread::Threads;
use std::time::Clock;
use task_host::MemoryHost;

/// The files of a build's folder.
#[derive(Drop)]
pub struct Folder {
    /// `Jenkinsfile`.
    pub script: Vec<u8>,
    /// `agents.json`.
    pub agents: Vec<u8>,
    /// `program.dat`.
    pub store: Vec<u8>,
}

impl Folder {
    /// A folder with the same script and agents file and this store. `AllocError` where the memory was refused.
    pub fn with_store(&self, alloc: Global, store: &[u8]) -> Result<Folder, AllocError> {
        Ok(Folder {
            script: Vec::from_slice(alloc, &self.script)?,
            agents: Vec::from_slice(alloc, &self.agents)?,
            store: Vec::from_slice(alloc, store)?,
        })
    }
}

/// What a call of the controller came to.
#[derive(Drop)]
pub struct Called<D> {
    /// The exit status.
    pub status: u8,
    /// The disk of the store.
    pub disk: D,
    /// The answers, as far as they were not read.
    pub answers: MemorySource,
    /// What was written.
    pub out: MemorySink,
    /// The hosts.
    pub hosts: Vec<MemoryHost>,
}

/// The sources and the sink of a call.
#[derive(Drop)]
struct Streams {
    script: MemorySource,
    agents: MemorySource,
    answers: MemorySource,
    out: MemorySink,
}

/// Calls the controller with a command over a folder. `AllocError` where the memory was refused.
pub fn call<R: SavedThread + Drop + Send, W: Threads + Wait + Sync + Clock + AllocGlobal>(
    rt: &W,
    folder: &Folder,
    command: &Command<'_>,
    fault: Option<Fault>,
    hosts: Vec<MemoryHost>,
) -> Result<Called<MemoryDisk>, AllocError> {
    let words = words_of(rt.alloc(), command.words)?;
    let streams = open_streams(rt.alloc(), folder, command.answers, fault)?;
    let disk = disk(rt.alloc(), &folder.store, fault)?;
    let hosts = fill_up(rt.alloc(), hosts)?;
    Ok(call_with::<R, W, MemoryDisk>(rt, words, streams, disk, hosts))
}

/// Calls the controller with a command over a folder whose store is stretched. `AllocError` where the memory was
/// refused.
pub fn call_stretched<R: SavedThread + Drop + Send, W: Threads + Wait + Sync + Clock + AllocGlobal>(
    rt: &W,
    folder: &Folder,
    stretch: &Stretch<'_>,
) -> Result<Called<StretchedDisk>, AllocError> {
    let words = words_of(rt.alloc(), stretch.command.words)?;
    let streams = open_streams(rt.alloc(), folder, stretch.command.answers, None)?;
    let store = Vec::from_slice(rt.alloc(), &folder.store)?;
    let disk = StretchedDisk::new(store, u64::from(stretch.at), u64::from(stretch.zeros));
    let hosts = fill_up(rt.alloc(), Vec::new(rt.alloc()))?;
    Ok(call_with::<R, W, StretchedDisk>(rt, words, streams, disk, hosts))
}

/// Calls the controller with these words over these devices.
fn call_with<
    R: SavedThread + Drop + Send,
    W: Threads + Wait + Sync + Clock + AllocGlobal,
    D: Disk + Send,
>(rt: &W, words: Vec<String>, streams: Streams, disk: D, hosts: Vec<MemoryHost>) -> Called<D>
    requires { length hosts.items ≡ 64 }
{
    let Streams {
        mut script,
        mut agents,
        answers,
        mut out,
    } = streams;
    let ended = controller::<R, _, _, _, _, _, _>(
        rt,
        rt.alloc(),
        words,
        &mut script,
        &mut agents,
        disk,
        hosts,
        1,
        answers,
        &mut out,
    );
    Called {
        status: ended.status,
        disk: ended.disk,
        answers: ended.answers,
        out,
        hosts: ended.hosts,
    }
}

/// The words of a command line.
fn words_of(alloc: Global, line: &str) -> Result<Vec<String>, AllocError> {
    let mut words = Vec::new(alloc);
    for word in line.split(" ") {
        words.push(String::from_str(alloc, word)?)?;
    }
    Ok(words)
}

/// The sources of a folder's script and agents file and of answer lines, and a sink.
fn open_streams(
    alloc: Global,
    folder: &Folder,
    answers: &str,
    fault: Option<Fault>,
) -> Result<Streams, AllocError> {
    let answers = lines_of(alloc, answers)?;
    Ok(Streams {
        script: source(
            alloc,
            &folder.script,
            failing(alloc, fault, Device::Script)?,
        )?,
        agents: source(
            alloc,
            &folder.agents,
            failing(alloc, fault, Device::Agents)?,
        )?,
        answers: MemorySource::new(answers, failing(alloc, fault, Device::Answers)?),
        out: MemorySink::new(alloc, failing(alloc, fault, Device::Out)?),
    })
}

/// A source of these bytes, of which these reads fail.
fn source(alloc: Global, bytes: &[u8], fail_at: Vec<u64>) -> Result<MemorySource, AllocError> {
    Ok(MemorySource::new(Vec::from_slice(alloc, bytes)?, fail_at))
}

/// The disk of a store.
fn disk(alloc: Global, store: &[u8], fault: Option<Fault>) -> Result<MemoryDisk, AllocError> {
    let bytes = Vec::from_slice(alloc, store)?;
    let fail_at = failing(alloc, fault, Device::Disk)?;
    Ok(MemoryDisk::new(
        Bytes::from_vec(bytes),
        Numbers::from_vec(fail_at),
        stop_of(fault),
    ))
}

/// The calls of a device that fail: one or none.
fn failing(alloc: Global, fault: Option<Fault>, device: Device) -> Result<Vec<u64>, AllocError> {
    let mut calls = Vec::new(alloc);
    if let Some(fault) = fault {
        if fault.device == device {
            calls.push(fault.call)?;
        }
    }
    Ok(calls)
}

/// The call of the disk at which the machine stops, if it does.
fn stop_of(fault: Option<Fault>) -> Option<u64> {
    match fault {
        Some(fault) if fault.device == Device::Machine => Some(fault.call),
        _ => None,
    }
}

/// The bytes of answer lines.
fn lines_of(alloc: Global, answers: &str) -> Result<Vec<u8>, AllocError> {
    let mut lines = Vec::new(alloc);
    if answers.is_empty() {
        return Ok(lines);
    }
    for line in answers.split(" | ") {
        lines.extend_from_slice(line.as_bytes())?;
        lines.push(b'\n')?;
    }
    Ok(lines)
}
