//! One turn of a serve.

ghost use Rattle.std.specs.Prelude.{◌≡◌, ◌≤◌, ◌↔◌, ◌||◌, ◌<◌, ℕ, List, length};
ghost use Rattle.task_host.specs.declared.order.Stream.TheVariants.{Log, Out};
ghost use Rattle.agent_worker.specs.Sizes.{piece_size};
ghost use Rattle.agent_worker.specs.Acts.{Act, kept};
ghost use Rattle.agent_worker.specs.Serving.{MayLook};
ghost use Rattle.agent_worker.specs.Serve.{Seen, seen, KeepsGate};
ghost use Rattle.agent_worker.specs.Standing.{Stands};
ghost use Rattle.agent_worker.specs.Turning.{TakesTurn, Decides, Counts};

use crate::reading::{Reading, read_through};
use crate::{Gate, Served};
use std::sync::Wait;
use task_host::{Host, Look, Order, Stream};

/// What a turn told.
#[derive(Clone, Copy)]
pub(crate) struct Turn {
    pub look: Look,
    /// A read gave bytes.
    pub bytes: bool,
    /// A read failed; else each stream was read to its end.
    pub failed: bool,
}

fn turn_of(look: Look, log: Reading, out: Reading) -> Turn
    ensures turn { result
        ≡ record { look = look; bytes = log.bytes || out.bytes; failed = log.failed || out.failed } }
{
    Turn {
        look,
        bytes: log.bytes || out.bytes,
        failed: log.failed || out.failed,
    }
}

/// Looks, and then reads every stream of the order through.
pub(crate) fn take_turn<R: Wait + AllocGlobal, G: Gate, H: Host>(
    rt: &R,
    gate: &mut G,
    host: &mut H,
    order: &Order,
    log: &mut u64,
    out: &mut u64,
    buf: &mut [u8],
) -> Result<Turn, Served>
    requires size { length buf.old ≡ piece_size }
    ensures turns { (looks : ℕ) (old : Seen) (past : List Act) → MayLook order.now past
        → log.old ≡ kept order.now Log past → out.old ≡ kept order.now Out past
        → Stands (H.honest host.old) order.now looks old
        (seen H.Host G.tells host.old gate.old) past
        → TakesTurn (H.honest host.new) order.now looks old (seen H.Host G.tells host.new gate.new)
        log.new out.new past result }
    ensures gate { KeepsGate (G.tells gate.old) (G.tells gate.new) }
    ensures launches { H.launches host.new ≡ H.launches host.old }
    ensures folders { H.honest host.old → H.dirs host.new ≡ H.dirs host.old }
    ensures honest { H.honest host.new ↔ H.honest host.old }
    ensures faults { H.faults host.old ≤ H.faults host.new }
{
    let look = host.look(order);
    let of_log = match read_through(rt, gate, host, order, Stream::Log, log, buf) {
        Ok(reading) => reading,
        Err(answer) => return Err(answer),
    };
    if !order.keep_out {
        return Ok(Turn {
            look,
            bytes: of_log.bytes,
            failed: of_log.failed,
        });
    }
    let of_out = match read_through(rt, gate, host, order, Stream::Out, out, buf) {
        Ok(reading) => reading,
        Err(answer) => return Err(answer),
    };
    Ok(turn_of(look, of_log, of_out))
}

/// What a serve does after a turn.
#[derive(Clone, Copy)]
pub(crate) enum Next {
    /// It reports that the task exited.
    Exited(i32),
    /// It reports that the task was not started.
    NotStarted,
    /// It reports that the task is gone.
    Gone,
    /// It pauses. So many turns in a row were vain.
    Pause(u32),
}

/// What a turn means, after so many vain turns in a row.
pub(crate) fn decide(turn: Turn, vain: u32, looks: u32) -> Next
    requires few { vain < looks }
    ensures decides { Decides turn vain looks result }
{
    match turn.look {
        Look::Absent => Next::NotStarted,
        Look::NotStarted => Next::NotStarted,
        Look::Running => count(turn.bytes, vain, looks),
        Look::Failed => count(turn.bytes, vain, looks),
        Look::Exited(code) => {
            if turn.failed {
                count(turn.bytes, vain, looks)
            } else {
                Next::Exited(code)
            }
        }
    }
}

// Counts the turn, where it was vain.
fn count(bytes: bool, vain: u32, looks: u32) -> Next
    requires few { vain < looks }
    ensures counts { Counts bytes vain looks result }
{
    if bytes {
        return Next::Pause(0);
    }
    if vain + 1 == looks {
        return Next::Gone;
    }
    Next::Pause(vain + 1)
}
