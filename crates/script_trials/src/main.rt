//! Runs scripts, one behind the other, with what happens to their builds, and writes their logs: on the trials of the file
//! `stdin` beside this folder it has to write just what stands in `stdout`.
//!
//! A body that always answers that there is no memory meets every contract. So what the machine does with ample memory is
//! shown here, on scripts as a user writes them, from the first byte of a script to the last line of its log. What is
//! wanted does not come from the program: the logs of the worked examples of `pipeline_model` are theorems, and the others
//! were worked out by hand from the rules that `docs/` states.
#![tactic(auto)]

mod images;
mod orders;
mod requests;
mod run;
mod shown;

use cps_machine::MachineThread;
use run::run_trial;
use std::alloc::Global;
use std::io;
use std::io::Write;
use std::process::ExitCode;

fn main(rt: HostRuntime) -> ExitCode {
    match run_trials(&rt, rt.alloc()) {
        Ok(()) => ExitCode::SUCCESS,
        Err(_) => ExitCode::from(1),
    }
}

/// Runs all trials of standard input.
fn run_trials<R: Input + Print>(rt: &R, alloc: Global) -> io::Result<()> {
    let trials = io::read_to_string(alloc, rt.reader())?;
    let mut out = io::writer(rt);
    for text in trials.split("=== ").skip(1) {
        println!(rt; "=== {}", text.lines().next().unwrap_or(""))?;
        match run_trial::<MachineThread>(alloc, text) {
            Ok(written) => out.write_all(&written)?,
            Err(_) => println!(rt; "out of memory")?,
        }
    }
    Ok(())
}
