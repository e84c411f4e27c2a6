//! What a task has left in its control folder.

ghost use Rattle.std.specs.Prelude.{◌≡◌, ◌≢◌, ◌≤◌, length, IfOk};

use crate::control::{ControlFolder, Entry, Found};
use edge_files::read_piece;
use std::io::ErrorKind;
use std::rt::Files;
use std::{fs, io};
use task_host::{Look, Order, Stream};

/// The task's state.
///
/// # Errors
///
/// Where the system does not tell, and where there is no memory.
pub fn state<R: Files + AllocGlobal>(rt: &R, order: &Order) -> io::Result<Look>
    ensures { IfOk result (λ state. state ≢ Look.Failed) }
{
    let control = ControlFolder::of(rt.alloc(), order)?;
    match control.found(rt)? {
        Found::Nothing => Ok(Look::Absent),
        Found::Unstarted => Ok(Look::NotStarted),
        Found::Running => Ok(Look::Running),
        Found::Ended => match exit_code(rt, &control)? {
            Some(code) => Ok(Look::Exited(code)),
            None => Ok(Look::Running),
        },
    }
}

// The exit code. A result that is no number is none: a disk that was full, or a power cut, leaves an empty one.
fn exit_code<R: Files + AllocGlobal>(rt: &R, control: &ControlFolder) -> io::Result<Option<i32>> {
    let text = fs::read_to_string(rt, control.entry(rt.alloc(), Entry::Result)?)?;
    Ok(text.as_str().trim().parse::<i32>().ok())
}

/// Reads what the task wrote to a stream, from a place on. A file that is not there yet has no bytes, as long as the
/// control folder stands.
///
/// # Errors
///
/// Where the file cannot be read, where the control folder is gone, and where there is no memory.
pub fn read<R: Files + AllocGlobal>(
    rt: &R,
    order: &Order,
    stream: Stream,
    from: u64,
    buf: &mut [u8],
) -> io::Result<usize>
    ensures { IfOk result (λ n. n ≤ length buf.old) }
{
    let control = ControlFolder::of(rt.alloc(), order)?;
    match fs::open(rt, control.entry(rt.alloc(), stream.into())?) {
        Ok(mut file) => read_piece(&mut file, from, buf),
        Err(error) => {
            let is_to_come = error.kind() == ErrorKind::NotFound
                && fs::exists(rt, control.path.as_str())?;
            if is_to_come { Ok(0) } else { Err(error) }
        }
    }
}
