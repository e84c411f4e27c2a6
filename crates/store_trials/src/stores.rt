//! A trial over the store of a build.

use crate::call::{Folder, call, call_stretched};
use crate::hosts::{Workshop, make_hosts};
use crate::lives::{Case, write_lives};
use crate::orders::{Change, Command, Fault, File, Hosting, Order, Stretch, read_byte, read_order};
use crate::told::{write_bytes, write_called, write_line, write_order};
use saved_thread::SavedThread;
use std::alloc::{AllocError, Global};
use std::mem;
use std::sync::Wait;
use std::thread::Threads;
use std::time::Clock;
use task_host::MemoryHost;
use trial_text::{Trial, read_trial};

/// A folder, and what fails at the next command over it.
#[derive(Drop)]
struct Place<'a> {
    folder: Folder,
    fault: Option<Fault>,
    workshop: Workshop<'a>,
    hosts: Vec<MemoryHost>,
}

/// What a trial writes: each command, with its output and its status. `AllocError` where the memory was refused.
pub fn run_trial<R: SavedThread + Drop + Send, W: Threads + Wait + Sync + Clock + AllocGlobal>(
    rt: &W,
    text: &str,
) -> Result<Vec<u8>, AllocError> {
    let trial = read_trial(rt.alloc(), text)?;
    let agents = Vec::from_slice(rt.alloc(), trial.agents().as_bytes())?;
    let Trial { script, orders } = trial;
    let folder = Folder {
        script,
        agents,
        store: Vec::new(rt.alloc()),
    };
    do_orders::<R, W>(rt, folder, &orders)
}

/// Does what the orders say, on one folder. `AllocError` where the memory was refused.
fn do_orders<'a, R: SavedThread + Drop + Send, W: Threads + Wait + Sync + Clock + AllocGlobal>(
    rt: &W,
    folder: Folder,
    orders: &[&'a str],
) -> Result<Vec<u8>, AllocError> {
    let mut place = Place {
        folder,
        fault: None,
        workshop: Workshop {
            tasks: Vec::new(rt.alloc()),
            folders: Vec::new(rt.alloc()),
            hosting: Hosting {
                count: 0,
                fails_at: 0,
            },
        },
        hosts: Vec::new(rt.alloc()),
    };
    let mut out = Vec::new(rt.alloc());
    for line in orders {
        do_order::<R, W>(rt, &mut place, *line, &mut out)?;
    }
    Ok(out)
}

/// Does what an order says. What fails at the next command fails at a command of its own alone. `AllocError` where
/// the memory was refused.
fn do_order<'a, R: SavedThread + Drop + Send, W: Threads + Wait + Sync + Clock + AllocGlobal>(
    rt: &W,
    place: &mut Place<'a>,
    line: &'a str,
    out: &mut Vec<u8>,
) -> Result<(), AllocError> {
    match read_order(line) {
        Some(Order::Agents) => Ok(()),
        Some(Order::Call(command)) => do_command::<R, W>(rt, place, &command, line, out),
        Some(Order::Lives(lives)) if place.fault.is_none() => {
            let case = Case {
                folder: &place.folder,
                workshop: &place.workshop,
                lives,
            };
            write_lives::<R, W>(rt, case, line, out)
        }
        Some(Order::Stretch(stretch)) if place.fault.is_none() => {
            do_stretched::<R, W>(rt, &place.folder, &stretch, line, out)
        }
        Some(Order::Bytes) => write_bytes(rt.alloc(), &place.folder.store, out),
        Some(Order::Change(change)) => do_change(rt.alloc(), place, change),
        _ => write_line(out, "an unknown order"),
    }
}

/// Makes something otherwise. `AllocError` where the memory was refused.
fn do_change<'a>(
    alloc: Global,
    place: &mut Place<'a>,
    change: Change<'a>,
) -> Result<(), AllocError> {
    match change {
        Change::Fail(fault) => {
            place.fault = Some(fault);
            Ok(())
        }
        Change::Store(digits) => read_store(alloc, digits, &mut place.folder.store),
        Change::Cut(file, bytes) => {
            cut(file_of(&mut place.folder, file), bytes as usize);
            Ok(())
        }
        Change::Long(file, bytes) => lengthen(file_of(&mut place.folder, file), bytes as usize),
        Change::Task(task) => Ok(place.workshop.tasks.push(task)?),
        Change::Folder(task) => Ok(place.workshop.folders.push(task)?),
        Change::Hosts(hosting) => {
            place.workshop.hosting = hosting;
            place.hosts = make_hosts(alloc, &place.workshop)?;
            Ok(())
        }
    }
}

/// Calls the controller over a store that is stretched. `AllocError` where the memory was refused.
fn do_stretched<R: SavedThread + Drop + Send, W: Threads + Wait + Sync + Clock + AllocGlobal>(
    rt: &W,
    folder: &Folder,
    stretch: &Stretch<'_>,
    line: &str,
    out: &mut Vec<u8>,
) -> Result<(), AllocError> {
    let mut called = call_stretched::<R, W>(rt, folder, stretch)?;
    write_order(rt.alloc(), line, out)?;
    write_called(rt.alloc(), &mut called, out)
}

/// Calls the controller, and leaves its store in the folder and its hosts for the next command. `AllocError` where the
/// memory was refused.
fn do_command<R: SavedThread + Drop + Send, W: Threads + Wait + Sync + Clock + AllocGlobal>(
    rt: &W,
    place: &mut Place<'_>,
    command: &Command<'_>,
    line: &str,
    out: &mut Vec<u8>,
) -> Result<(), AllocError> {
    let hosts = mem::replace(&mut place.hosts, Vec::new(rt.alloc()));
    let mut called = call::<R, W>(rt, &place.folder, command, place.fault, hosts)?;
    place.fault = None;
    write_order(rt.alloc(), line, out)?;
    write_called(rt.alloc(), &mut called, out)?;
    place.folder.store = Vec::from_slice(rt.alloc(), called.disk.bytes())?;
    place.hosts = called.hosts;
    Ok(())
}

/// Reads the bytes of a store, two digits of base 16 each, with a blank between two of them. `AllocError` where the
/// memory was refused.
fn read_store(alloc: Global, digits: &str, store: &mut Vec<u8>) -> Result<(), AllocError> {
    *store = Vec::new(alloc);
    for byte in digits.split(" ") {
        store.push(read_byte(byte).unwrap_or(0))?;
    }
    Ok(())
}

/// A file of a folder.
fn file_of(folder: &mut Folder, file: File) -> &mut Vec<u8> {
    match file {
        File::Script => &mut folder.script,
        File::Agents => &mut folder.agents,
        File::Store => &mut folder.store,
    }
}

/// Cuts bytes from the end of a file.
fn cut(file: &mut Vec<u8>, bytes: usize) {
    file.truncate(file.len().saturating_sub(bytes));
}

/// Writes newlines at the end of a file until it has so many bytes. `AllocError` where the memory was refused.
fn lengthen(file: &mut Vec<u8>, bytes: usize) -> Result<(), AllocError> {
    for _ in file.len()..bytes {
        file.push(b'\n')?;
    }
    Ok(())
}
