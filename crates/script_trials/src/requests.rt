//! What a build waits for, as text.

use build_core::Build;
use model_run::{OpenRequest, Request};
use model_text::{Pair, Text};
use script_thread::ScriptThread;
use std::alloc::{AllocError, Global};

/// Writes a line for each open request, for each held executor, and for the grant that is due.
/// `AllocError` where the memory was refused.
pub fn write_requests<R: ScriptThread + Drop>(
    alloc: Global,
    build: &Build<R>,
    out: &mut Vec<u8>,
) -> Result<(), AllocError> {
    for open in build.requests() {
        write_request(alloc, open, out)?;
    }
    for held in build.held() {
        let (executor, request, workspace) = (held.executor, held.request, held.workspace);
        let line = format!(in alloc;
            "executor {executor} is held for {request} with workspace {workspace}\n"
        )?;
        out.extend_from_slice(line.as_bytes())?;
    }
    if let Some((request, executor)) = build.next_grant()? {
        let line = format!(in alloc; "due is executor {executor} for {request}\n")?;
        out.extend_from_slice(line.as_bytes())?;
    }
    Ok(())
}

/// Writes the line of an open request.
fn write_request(alloc: Global, open: &OpenRequest, out: &mut Vec<u8>) -> Result<(), AllocError> {
    let (number, thread) = (open.number, open.thread);
    let line = format!(in alloc; "request {number} of thread {thread}:")?;
    out.extend_from_slice(line.as_bytes())?;
    match &open.request {
        Request::Node { label: None } => out.extend_from_slice(b" any executor")?,
        Request::Node { label: Some(label) } => put(out, " label ", label)?,
        Request::Input { id } => put(out, " input ", id)?,
        Request::Task {
            folder,
            env,
            script,
            ..
        } => {
            put(out, " task ", script)?;
            put(out, " in ", folder)?;
            for pair in env.as_slice() {
                put_pair(out, pair)?;
            }
        }
    }
    out.extend_from_slice(b"\n")
}

/// Writes a variable of an environment.
fn put_pair(out: &mut Vec<u8>, pair: &Pair) -> Result<(), AllocError> {
    put(out, " ", &pair.name)?;
    put(out, "=", &pair.value)
}

/// Writes these words, and a text behind them.
fn put(out: &mut Vec<u8>, words: &str, text: &Text) -> Result<(), AllocError> {
    out.extend_from_slice(words.as_bytes())?;
    out.extend_from_slice(text.as_slice())
}
