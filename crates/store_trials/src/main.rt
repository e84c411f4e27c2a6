//! Gives commands to the controller, one behind the other on one folder, over a disk and streams in memory, and
//! writes what each of them wrote and its status: on the trials of the file `stdin` beside this folder it has to
//! write just what stands in `stdout`.
//!
//! A body that always answers that there is no memory meets every contract. So what the commands do with ample memory
//! is shown here, with devices that fail, and with machines that stop. What is wanted does not come from the program:
//! it was worked out by hand from the rules that `docs/` states, and `data/stores.py` spells the stores that are
//! given.
//!
//! | order | what happens |
//! |---|---|
//! | `agents FILE` | the folder has this agents file, from the beginning |
//! | `run`, `resume`, `log`, `graph`, `check` | the controller does this, with the answer lines behind the word |
//! | `words WORDS` | the controller is called with these words |
//! | `fail DEVICE CALL` | this call of a device fails at the next of these |
//! | `store BYTES` | the folder has a store of these bytes, of two digits each |
//! | `bytes` | the bytes of the store are written, as the order `store` has them |
//! | `cut FILE NUMBER` | a file loses this many bytes at its end |
//! | `long FILE NUMBER` | a file gets newlines at its end until it has this many bytes |
//! | `task TASK CODE LOOKS TIMES LOG \| OUT` | a task does this on the hosts that are made then |
//! | `folder TASK` | the folder of a task stands on the hosts that are made then |
//! | `hosts COUNT`, `hosts COUNT CALL` | there are new hosts, so many of them with these tasks and failing calls |
//! | `crashes WAYS STEP COMMAND ; ANSWERS` | the machine crashes behind a command, and a `resume` has these answers |
//! | `stops WAYS STEP COMMAND ; ANSWERS` | also behind one that is stopped at each call of the disk in turn |
//! | `fails WAYS STEP COMMAND ; ANSWERS` | also behind one of which each call of the disk fails in turn |
//! | `stretch PLACE ZEROS COMMAND` | the controller does this over the store with so many zeros at this place |
//!
//! Between two answer lines stands ` | `, and `\n` is a newline of a task's log and output. The devices are `script`,
//! `agents`, `answers`, `out` and `disk`, the files `script`, `agents` and `store`. The machine crashes in this many
//! ways, whose choices are so far apart (`MemoryDisk::crash`); the first of them loses nothing.
//!
//! A task ends with its code once so many looks have found it running; its log it has then written so many times.
//! Each command gets the hosts that the one before it gave back, and so does the life behind a crash. Behind the
//! status stand the tasks that were launched on them since they were made.
#![tactic(auto)]

mod call;
mod hosts;
mod lives;
mod orders;
mod stores;
mod stretched;
mod told;

use cps_machine::MachineThread;
use std::alloc::Global;
use std::io;
use std::io::Write;
use std::process::ExitCode;
use std::sync::Wait;
use std::thread::Threads;
use std::time::Clock;
use stores::run_trial;

fn main(rt: HostRuntime) -> ExitCode {
    match run_trials(&rt, rt.alloc()) {
        Ok(()) => ExitCode::SUCCESS,
        Err(_) => ExitCode::from(1),
    }
}

/// Runs all trials of standard input.
fn run_trials<R: Input + Print + Threads + Wait + Sync + Clock + AllocGlobal>(
    rt: &R,
    alloc: Global,
) -> io::Result<()> {
    let trials = io::read_to_string(alloc, rt.reader())?;
    let mut out = io::writer(rt);
    for text in trials.split("=== ").skip(1) {
        println!(rt; "=== {}", text.lines().next().unwrap_or(""))?;
        match run_trial::<MachineThread, R>(rt, text) {
            Ok(written) => out.write_all(&written)?,
            Err(_) => println!(rt; "out of memory")?,
        }
    }
    Ok(())
}
