//! A trial, from the text of its script to the last line of its log.
//!
//! The functions are generic over the thread that runs a script, so that their proof knows nothing of it.

use crate::images::{build_in, image_bytes};
use crate::orders::{Order, read_order, start};
use crate::requests::write_requests;
use crate::shown::write_shown;
use agents_file::read_agents;
use build_core::Build;
use cps_code::number;
use groovy_parse::parse;
use model_run::{Event, Taken};
use saved_thread::SavedThread;
use script_thread::ScriptThread;
use std::alloc::{AllocError, Global};
use trial_text::{Trial, read_trial};

/// How many bytes of a long log are written.
const TAIL: usize = 100;

/// How a build goes on from one event to the next.
#[derive(Clone, Copy, PartialEq, Eq)]
enum Way {
    /// As it is.
    AsItIs,
    /// From its image: written, read and checked, as another process has it.
    FromItsImage,
}

/// What a trial writes: what its orders ask for, and its log behind that. Where something happens to its build it is run
/// twice, and what it writes where the build goes on from its image behind each event has to be the same; where it is not,
/// both are written. `AllocError` where the memory was refused.
pub fn run_trial<R: SavedThread + Drop>(alloc: Global, text: &str) -> Result<Vec<u8>, AllocError> {
    let trial = read_trial(alloc, text)?;
    let mut out = outcome::<R>(alloc, &trial, Way::AsItIs)?;
    if has_events(&trial) {
        let again = outcome::<R>(alloc, &trial, Way::FromItsImage)?;
        if again != out {
            out.extend_from_slice(b"but from its image:\n")?;
            out.extend_from_slice(&again)?;
        }
    }
    Ok(out)
}

/// Whether a trial has orders besides its agents file and the way in which its log is told.
fn has_events(trial: &Trial<'_>) -> bool {
    for line in trial.orders.iter() {
        if !line.starts_with("agents ") && *line != "tail" {
            return true;
        }
    }
    false
}

/// What a trial writes whose build goes on in this way. `AllocError` where the memory was refused.
fn outcome<R: SavedThread + Drop>(
    alloc: Global,
    trial: &Trial<'_>,
    way: Way,
) -> Result<Vec<u8>, AllocError> {
    let mut out = Vec::new(alloc);
    match (
        parse(alloc, &trial.script),
        read_agents(alloc, trial.agents().as_bytes()),
    ) {
        (Ok(tree), Ok(site)) => {
            let mut build: Build<R> = Build::new(alloc, number(alloc, tree)?, site)?;
            run_orders(alloc, &mut build, trial, way, &mut out)?;
            write_log(alloc, trial.orders.contains(&"tail"), build.log(), &mut out)?;
        }
        _ => out.extend_from_slice(b"a fault in the script or in the agents file\n")?,
    }
    Ok(out)
}

/// Begins the build, and does what the orders say. `AllocError` where the memory was refused.
fn run_orders<R: SavedThread + Drop>(
    alloc: Global,
    build: &mut Build<R>,
    trial: &Trial<'_>,
    way: Way,
    out: &mut Vec<u8>,
) -> Result<(), AllocError> {
    happens(alloc, build, trial, way, &start(alloc), "start", out)?;
    for line in trial.orders.iter() {
        follow(alloc, build, trial, way, line, out)?;
    }
    Ok(())
}

/// Does what an order says. `AllocError` where the memory was refused.
fn follow<R: SavedThread + Drop>(
    alloc: Global,
    build: &mut Build<R>,
    trial: &Trial<'_>,
    way: Way,
    line: &str,
    out: &mut Vec<u8>,
) -> Result<(), AllocError> {
    match read_order(alloc, line)? {
        Order::Agents | Order::Tail => Ok(()),
        Order::Take(event) => happens(alloc, build, trial, way, &event, line, out),
        Order::Requests => write_requests(alloc, build, out),
        Order::Graph => write_graph(build, out),
        Order::Image(shown) => write_shown(alloc, trial, build, &shown, out),
        Order::Unknown => out.extend_from_slice(b"an unknown order\n"),
    }
}

/// The build takes an event, and goes on from there. `AllocError` where the memory was refused.
fn happens<R: SavedThread + Drop>(
    alloc: Global,
    build: &mut Build<R>,
    trial: &Trial<'_>,
    way: Way,
    event: &Event,
    line: &str,
    out: &mut Vec<u8>,
) -> Result<(), AllocError> {
    take(alloc, build, event, line, out)?;
    go_on(alloc, build, trial, way, out)
}

/// Writes the text of the flow graph. `AllocError` where the memory was refused.
fn write_graph<R: ScriptThread + Drop>(
    build: &Build<R>,
    out: &mut Vec<u8>,
) -> Result<(), AllocError> {
    let text = build.graph_text()?;
    out.extend_from_slice(text.as_slice())
}

/// The build goes on from its image, where that is the way; what is wrong with the image is written.
/// `AllocError` where the memory was refused.
fn go_on<R: SavedThread + Drop>(
    alloc: Global,
    build: &mut Build<R>,
    trial: &Trial<'_>,
    way: Way,
    out: &mut Vec<u8>,
) -> Result<(), AllocError> {
    if way == Way::AsItIs || !build.has_begun() {
        return Ok(());
    }
    let bytes = image_bytes(alloc, build)?;
    match build_in(alloc, trial, bytes.as_slice()) {
        Ok(again) => *build = again,
        Err(refusal) => {
            let line = format!(in alloc; "{refusal:?}\n")?;
            out.extend_from_slice(line.as_bytes())?;
        }
    }
    Ok(())
}

/// The build takes an event; an answer other than `Accepted` is written.
fn take<R: ScriptThread + Drop>(
    alloc: Global,
    build: &mut Build<R>,
    event: &Event,
    line: &str,
    out: &mut Vec<u8>,
) -> Result<(), AllocError> {
    let answer = build.take(event)?;
    if answer != Taken::Accepted {
        let told = format!(in alloc; "{line}: {answer:?}\n")?;
        out.extend_from_slice(told.as_bytes())?;
    }
    Ok(())
}

/// Writes a log; where it is told in short, its length and its last bytes alone.
fn write_log(alloc: Global, short: bool, log: &[u8], out: &mut Vec<u8>) -> Result<(), AllocError> {
    if short {
        let line = format!(in alloc; "{} bytes, the last of them:\n", log.len())?;
        out.extend_from_slice(line.as_bytes())?;
        out.extend_from_slice(&log[log.len().saturating_sub(TAIL)..])
    } else {
        out.extend_from_slice(log)
    }
}
