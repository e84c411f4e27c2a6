//! Lives behind which the machine crashes, also such as end at any call of the disk, and the next ones.

use crate::call::{Called, Folder, call};
use crate::hosts::{Workshop, launched, make_hosts};
use crate::orders::{Command, Device, Fault, Lives};
use crate::told::{write_called, write_line, write_order};
use jp_disk::MemoryDisk;
use saved_thread::SavedThread;
use std::alloc::{AllocError, Global};
use std::sync::Wait;
use std::thread::Threads;
use std::time::Clock;
use task_host::MemoryHost;

/// The status of a command whose disk has failed.
const DISK_FAILED: u8 = 5;

/// What a command says whose disk has failed.
const DISK_TEXT: &[u8] = b"controller: disk failed\n";

/// What is said of a store without a build.
const NO_BUILD: &[u8] = b"program.dat: no build\n";

/// Two lives of a build, and what they are led over.
#[derive(Clone, Copy)]
pub struct Case<'a> {
    /// The folder before the first of them.
    pub folder: &'a Folder,
    /// The hosts that are made for it.
    pub workshop: &'a Workshop<'a>,
    /// The lives.
    pub lives: Lives<'a>,
}

/// Crashes in each way behind the first life, and where it is to end at each call of the disk in turn, also behind
/// each of these; and lets the second life go on. Writes what the second comes to where nothing fails and nothing is
/// lost, and where anything is otherwise. `AllocError` where the memory was refused.
pub fn write_lives<R: SavedThread + Drop + Send, W: Threads + Wait + Sync + Clock + AllocGlobal>(
    rt: &W,
    case: Case<'_>,
    line: &str,
    out: &mut Vec<u8>,
) -> Result<(), AllocError> {
    write_order(rt.alloc(), line, out)?;
    let mut wanted = second::<R, W>(rt, case, None, 0)?;
    crash_each::<R, W>(rt, case, None, &wanted, out)?;
    if let Some(device) = case.lives.device {
        end_each::<R, W>(rt, case, device, &wanted, out)?;
    }
    write_called(rt.alloc(), &mut wanted, out)
}

/// Ends the first life at each call of the disk in turn, and crashes in each way. Writes how many calls there are,
/// and where the second life is not as wanted. `AllocError` where the memory was refused.
fn end_each<R: SavedThread + Drop + Send, W: Threads + Wait + Sync + Clock + AllocGlobal>(
    rt: &W,
    case: Case<'_>,
    device: Device,
    wanted: &Called<MemoryDisk>,
    out: &mut Vec<u8>,
) -> Result<(), AllocError> {
    let calls = first::<R, W>(rt, case, None)?.disk.calls().len() as u64;
    for call in 1..=calls {
        end_at::<R, W>(rt, case, Fault { device, call }, wanted, out)?;
    }
    write_line(
        out,
        &format!(in rt.alloc(); "ended at each of {calls} calls of the disk")?,
    )
}

/// Ends the first life at a call of the disk, and crashes in each way. Writes where the first does not tell it, and
/// where the second is not as wanted. `AllocError` where the memory was refused.
fn end_at<R: SavedThread + Drop + Send, W: Threads + Wait + Sync + Clock + AllocGlobal>(
    rt: &W,
    case: Case<'_>,
    fault: Fault,
    wanted: &Called<MemoryDisk>,
    out: &mut Vec<u8>,
) -> Result<(), AllocError> {
    let ended = first::<R, W>(rt, case, Some(fault))?;
    if !is_refusal(&ended) {
        write_otherwise(
            rt.alloc(),
            Some(fault),
            "the first life does not tell it",
            out,
        )?;
    }
    crash_each::<R, W>(rt, case, Some(fault), wanted, out)
}

/// Whether a life says that its disk has failed.
fn is_refusal(called: &Called<MemoryDisk>) -> bool {
    called.status == DISK_FAILED && called.out.bytes() == DISK_TEXT
}

/// Writes that something is otherwise, and at which call of the disk the first life ended; at 0 where none failed.
/// `AllocError` where the memory was refused.
fn write_otherwise(
    alloc: Global,
    fault: Option<Fault>,
    what: &str,
    out: &mut Vec<u8>,
) -> Result<(), AllocError> {
    let number = match fault {
        Some(fault) => fault.call,
        None => 0,
    };
    write_line(out, &format!(in alloc; "call {number}: {what}")?)
}

/// Crashes behind a first life with this fault in each way. Writes where the second is not as wanted. `AllocError`
/// where the memory was refused.
fn crash_each<R: SavedThread + Drop + Send, W: Threads + Wait + Sync + Clock + AllocGlobal>(
    rt: &W,
    case: Case<'_>,
    fault: Option<Fault>,
    wanted: &Called<MemoryDisk>,
    out: &mut Vec<u8>,
) -> Result<(), AllocError> {
    for way in 0..case.lives.ways {
        let choice = u64::from(way) * u64::from(case.lives.step);
        let ended = second::<R, W>(rt, case, fault, choice)?;
        if !is_same(&ended, wanted) {
            write_otherwise(rt.alloc(), fault, "the second life is another", out)?;
        }
        if launched(rt.alloc(), &ended.hosts)? != launched(rt.alloc(), &wanted.hosts)? {
            write_otherwise(rt.alloc(), fault, "other tasks were launched", out)?;
        }
    }
    Ok(())
}

/// Whether two calls say the same.
fn is_same(one: &Called<MemoryDisk>, other: &Called<MemoryDisk>) -> bool {
    one.status == other.status && one.out.bytes() == other.out.bytes()
}

/// What the first life comes to, on new hosts, where this fails. `AllocError` where the memory was refused.
fn first<R: SavedThread + Drop + Send, W: Threads + Wait + Sync + Clock + AllocGlobal>(
    rt: &W,
    case: Case<'_>,
    fault: Option<Fault>,
) -> Result<Called<MemoryDisk>, AllocError> {
    let hosts = make_hosts(rt.alloc(), case.workshop)?;
    call::<R, W>(rt, case.folder, &case.lives.first, fault, hosts)
}

/// What the second life comes to, on the hosts of the first one, which had this fault and was crashed by this choice.
/// `AllocError` where the memory was refused.
fn second<R: SavedThread + Drop + Send, W: Threads + Wait + Sync + Clock + AllocGlobal>(
    rt: &W,
    case: Case<'_>,
    fault: Option<Fault>,
    choice: u64,
) -> Result<Called<MemoryDisk>, AllocError> {
    let first = first::<R, W>(rt, case, fault)?;
    let left = first.disk.crash(choice);
    let behind = case.folder.with_store(rt.alloc(), left.bytes())?;
    gone_on::<R, W>(rt, &behind, case.lives.answers, first.hosts)
}

/// What a build comes to that is gone on with; where there is none it is begun. `AllocError` where the memory was
/// refused.
fn gone_on<R: SavedThread + Drop + Send, W: Threads + Wait + Sync + Clock + AllocGlobal>(
    rt: &W,
    folder: &Folder,
    answers: &str,
    hosts: Vec<MemoryHost>,
) -> Result<Called<MemoryDisk>, AllocError> {
    let words = "controller resume demo";
    let ended = call::<R, W>(rt, folder, &Command { words, answers }, None, hosts)?;
    if ended.out.bytes() != NO_BUILD {
        return Ok(ended);
    }
    let words = "controller run demo";
    call::<R, W>(rt, folder, &Command { words, answers }, None, ended.hosts)
}
