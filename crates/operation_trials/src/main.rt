//! Applies operators and methods to values, row by row, and writes what each gives or throws: on the rows of the file `stdin`
//! beside this folder it has to write just what stands in `stdout`.
//!
//! The contracts of `value_operators`, `list_methods` and `text_methods` say that they answer as the tables of
//! `model_values` do. Whether those tables say what Groovy and Java do is shown here, on examples of their documents; rows of
//! what is this product's own (the texts of most messages, characters in place of Java's 16 bit units, ASCII letters alone,
//! the methods that there are not) are by the rules of `docs/LANGUAGE.md`. That want of memory does not come where there is
//! memory is shown too.
//!
//! A trial has a name and a heap of its own. In a row a text begins with `'` and has `\s`, `\t`, `\n` and `\r` for blanks;
//! `#0` is the first cell of the heap. What is written begins with `'` where it is a text, with `throws` where it was thrown,
//! and with `limit` where a limit was met.
//!
//! ```text
//! op Plus 'ab 7                'ab7
//! list_call get #0 3           throws java.lang.IndexOutOfBoundsException: index 3 of 3
//! ```
#![tactic(auto)]

mod answers;
mod cells;
mod rows;
mod throws;
mod views;

use crate::rows::run_trial;
use std::alloc::Global;
use std::io;
use std::io::Write;
use std::process::ExitCode;

fn main(rt: HostRuntime) -> ExitCode {
    match run_trials(&rt, rt.alloc()) {
        Ok(()) => ExitCode::SUCCESS,
        Err(_) => ExitCode::from(1),
    }
}

/// Runs all trials of standard input.
fn run_trials<R: Input + Print>(rt: &R, alloc: Global) -> io::Result<()> {
    let trials = io::read_to_string(alloc, rt.reader())?;
    let mut out = io::writer(rt);
    for text in trials.split("=== ").skip(1) {
        println!(rt; "=== {}", text.lines().next().unwrap_or(""))?;
        match run_trial(alloc, text) {
            Ok(written) => out.write_all(&written)?,
            Err(_) => println!(rt; "out of memory")?,
        }
    }
    Ok(())
}
