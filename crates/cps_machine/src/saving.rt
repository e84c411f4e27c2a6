//! What an image has of a thread, and the thread that it tells of.

ghost use Rattle.std.specs.Prelude.{◌≡◌, ◌≤◌, IfOk, drop, length};

use crate::thread::{MachineThread, copied};
use cps_code::Code;
use cps_frames::ThreadState;
use green_threads::Seated;
use image_form::ImageThread;
use model_run::{Frame, Wait};
use saved_thread::{SavedThread, frames_in, frames_told, open_calls};
use std::alloc::{AllocError, Global};

impl SavedThread for MachineThread {
    ghost use Rattle.saved_thread.proofs.RestLaws.{all_storable, fit_rested, rested_fit};
    ghost use Rattle.cps_machine.specs.Threads.{stance_of};

    fn saved(
        alloc: Global,
        code: &Code,
        seat: &Seated<MachineThread>,
        first: usize,
    ) -> Result<ImageThread, AllocError> {
        let state = seat.thread.state();
        let frames = frames_from(state.stack.as_slice(), first);
        Ok(ImageThread {
            number: seat.number,
            parent: seat.parent,
            head: state.head,
            wait: same_wait(&seat.wait)?,
            context: copied(&state.context)?,
            frames: frames_told(alloc, code, frames)?,
        })
    }

    fn restored(
        alloc: Global,
        code: &Code,
        saved: ImageThread,
    ) -> Result<Seated<MachineThread>, AllocError> {
        let ImageThread {
            number,
            parent,
            head,
            wait,
            context,
            frames,
        } = saved;
        let stack = frames_in(alloc, code, frames)?;
        let calls = open_calls(stack.as_slice())?;
        let state = ThreadState {
            number,
            parent,
            head,
            context,
            calls,
            stack,
        };
        Ok(Seated {
            number,
            parent,
            wait,
            thread: MachineThread::restore(state),
        })
    }

    ghost storable = { all_storable stance_of };

    ghost rested_fit = { rested_fit stance_of };

    ghost fit_rested = { fit_rested stance_of };
}

/// The frames from this one on.
fn frames_from(frames: &[Frame], first: usize) -> &[Frame]
    requires within { first ≤ length frames.now }
    ensures { result.now ≡ drop first frames.now }
{
    &frames[first..]
}

/// The same wait once more. `AllocError` where the memory was refused.
fn same_wait(wait: &Wait) -> Result<Wait, AllocError>
    ensures { IfOk result (λ copy. copy ≡ wait.now) }
{
    let copy = wait.clone()?;
    Ok(copy)
}
