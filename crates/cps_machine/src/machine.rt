//! The loop: one move behind the other.

ghost use Rattle.std.specs.Prelude.{◌≤◌, IfOk, OnOk, length};
ghost use Rattle.cps_code.specs.Script.{IsScript, script_of};
ghost use Rattle.cps_frames.specs.Standing.{standing};
ghost use Rattle.script_thread.specs.Marks.{StaysBelow};
ghost use Rattle.cps_machine.specs.Stops.{MayRun, Stops};

use crate::parts::{enter, go_on};
use cps_frames::{Move, Shared, ThreadState, moved};
use model_run::{Asked, Ending};
use model_values::LimitKind;
use std::alloc::AllocError;

/// How a thread stops.
#[derive(Drop)]
pub enum Stopped {
    /// What it runs has ended so.
    Ended(Ending),
    /// The build has met this limit, which ends it.
    Limit(LimitKind),
    /// It waits, inside its frames.
    Waits(Asked),
}

/// Makes moves, this one first, until the thread waits, ends or meets a limit. `AllocError` where the memory was refused:
/// then nothing is known of the thread and its build.
///
/// `low` is how many frames count as untouched: it falls to the height of the stack wherever a frame is taken off below it.
pub fn run(
    state: &mut ThreadState,
    low: &mut usize,
    shared: &mut Shared,
    first: Move,
) -> Result<Stopped, AllocError>
    requires script { IsScript (script_of shared.old.code) }
    requires may { MayRun (standing shared.old state.old) first }
    requires within { low.old ≤ length state.old.stack.items }
    ensures stops { IfOk result (λ stopped. Stops (standing shared.old state.old) first stopped (standing shared.new state.new)) }
    ensures stays { OnOk result (StaysBelow low.old state.old.stack.items low.new state.new.stack.items) }
{
    let mut now = first;
    loop {
        match now {
            Move::Ends(ending) => match state.stack.pop() {
                None => return Ok(Stopped::Ended(ending)),
                Some(frame) => {
                    *low = lowest(state, *low);
                    now = moved(go_on(state, shared, frame, ending))?;
                }
            },
            Move::Hits(limit) => return Ok(Stopped::Limit(limit)),
            Move::Enter(entry, node, env) => now = moved(enter(state, shared, entry, node, env))?,
            Move::Asks(asked) => return Ok(Stopped::Waits(asked)),
        }
    }
}

/// The lesser of a height and that of the stack.
pub fn lowest(state: &ThreadState, low: usize) -> usize
    ensures { (result ≤ low) × (result ≤ length state.now.stack.items) }
{
    low.min(state.stack.len())
}
