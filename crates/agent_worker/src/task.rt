//! Serving one task.

ghost use Rattle.std.specs.Prelude.{◌≡◌, ◌≤◌, ◌<◌, ◌↔◌, ◌++◌, ◌∷◌, [], ℕ, List, length};
ghost use Rattle.task_host.specs.Host.{GoesOn};
ghost use Rattle.agent_worker.specs.Sizes.{piece_size};
ghost use Rattle.agent_worker.specs.Acts.{Act, unreported};
ghost use Rattle.agent_worker.specs.Causes.{Exits};
ghost use Rattle.agent_worker.specs.Serving.{Opened, IsInTurn, exited, lost};
ghost use Rattle.agent_worker.specs.Serve.{Seen, seen, tasks_at, ServesOrder, KeepsGate};
ghost use Rattle.agent_worker.specs.Standing.{Stands, ServesOn, Tells, Opens};

use crate::Gate;
use crate::reading::{PIECE, tell};
use crate::turn::{Next, decide, take_turn};
use model_run::{Event, Why};
use std::sync::Wait;
use task_host::{Host, Made, Order, Started};

/// How a serve ended.
#[derive(Clone, Copy, Debug, PartialEq, Eq)]
pub enum Served {
    /// The task's last event was accepted.
    Done,
    /// A report found the build ended, or the task no longer open where this serve left it.
    Finished,
    /// The build is stopped.
    Stopped,
    /// There was no memory. Whoever called halts the build then: what was read and not reported is lost to this life.
    Memory,
}

// Makes the folder, and starts the task where it was made. False where the start failed.
fn opened<H: Host>(host: &mut H, order: &Order) -> bool
    ensures opens { Opens (H.honest host.old) order.now (H.calls host.old) (H.calls host.new)
        (tasks_at (H.launches host.old) (H.dirs host.old)) (tasks_at (H.launches host.new) (H.dirs host.new)) result }
    ensures goes_on { H.honest host.old → GoesOn order.now.task (H.exited host.old) (H.exited host.new)
        (H.output host.old) (H.output host.new) }
    ensures honest { H.honest host.new ↔ H.honest host.old }
    ensures faults { H.faults host.old ≤ H.faults host.new }
{
    match host.make_dir(order) {
        Made::Made => match host.start(order) {
            Started::Started => true,
            Started::Failed => false,
        },
        Made::Exists => true,
        Made::Failed => true,
    }
}

fn exit_of(order: &Order, code: i32) -> Event
    ensures event { result ≡ exited order.now code }
{
    Event::Exited {
        task: order.task,
        code,
    }
}

// Reports that the task exited, and removes its folder where that was accepted.
fn finish<G: Gate, H: Host>(gate: &mut G, host: &mut H, order: &Order, code: i32) -> Served
    ensures serves { (looks : ℕ) (old : Seen) (past : List Act) → Exits order.now code past → unreported past ≡ []
        → IsInTurn past
        → Stands (H.honest host.old) order.now looks old
        (seen H.Host G.tells host.old gate.old) past
        → ServesOn (H.honest host.new) order.now looks old (seen H.Host G.tells host.new gate.new)
        past (H.dirs host.old) (H.dirs host.new) result }
    ensures gate { KeepsGate (G.tells gate.old) (G.tells gate.new) }
    ensures launches { H.launches host.new ≡ H.launches host.old }
    ensures honest { H.honest host.new ↔ H.honest host.old }
    ensures faults { H.faults host.old ≤ H.faults host.new }
{
    match tell(gate, exit_of(order, code)) {
        Served::Done => {
            let _ = host.remove(order);
            Served::Done
        }
        answer => answer,
    }
}

// Takes turns until the task's last event is reported.
fn watch<R: Wait + AllocGlobal, G: Gate, H: Host>(
    rt: &R,
    gate: &mut G,
    host: &mut H,
    order: &Order,
    looks: u32,
    buf: &mut [u8],
) -> Served
    requires looks { 0 < looks }
    requires size { length buf.old ≡ piece_size }
    ensures serves { (old : Seen) (past : List Act) → Opened order.now past
        → Stands (H.honest host.old) order.now looks old
        (seen H.Host G.tells host.old gate.old) past
        → ServesOn (H.honest host.new) order.now looks old (seen H.Host G.tells host.new gate.new)
        past (H.dirs host.old) (H.dirs host.new) result }
    ensures gate { KeepsGate (G.tells gate.old) (G.tells gate.new) }
    ensures launches { H.launches host.new ≡ H.launches host.old }
    ensures honest { H.honest host.new ↔ H.honest host.old }
    ensures faults { H.faults host.old ≤ H.faults host.new }
{
    let mut log = order.kept_log;
    let mut out = order.kept_out;
    let mut vain = 0;
    for _ in rt.forever() {
        let turn = match take_turn(rt, gate, host, order, &mut log, &mut out, buf) {
            Ok(turn) => turn,
            Err(answer) => return answer,
        };
        match decide(turn, vain, looks) {
            Next::Exited(code) => return finish(gate, host, order, code),
            Next::NotStarted => return lose(gate, order, Why::NotStarted),
            Next::Gone => return lose(gate, order, Why::Gone),
            Next::Pause(count) => vain = count,
        }
        host.pause();
    }
    unreachable!()
}

fn lose<G: Gate>(gate: &mut G, order: &Order, why: Why) -> Served
    ensures tells { Tells (lost order.now why) (G.tells gate.old).told (G.tells gate.new).told
        (G.tells gate.old).calls (G.tells gate.new).calls (G.tells gate.new).said result }
    ensures gate { KeepsGate (G.tells gate.old) (G.tells gate.new) }
{
    let event = Event::Lost {
        task: order.task,
        why,
    };
    tell(gate, event)
}

/// Serves a task from its folder to its end.
///
/// It makes the task's folder, and launches the task only where it made it. Then it takes turns: it looks, reads each
/// stream of the order on from the place that is kept, and reports what came. It ends with the task's last event,
/// `Exited` or `Lost`, or where a report is not accepted. `looks`, at least 1, is after how many turns in a row, in
/// which the host told neither an end nor a byte, the task counts as gone. `Served::Memory` comes where there is no
/// memory for what is read, or none for a report.
///
/// What host and gate tell of it is a list of acts each of which may follow those before it; each report rests on what
/// was seen in this serve. It may wait for ever.
pub fn serve<R: Wait + AllocGlobal, G: Gate, H: Host>(
    rt: &R,
    gate: &mut G,
    host: &mut H,
    order: Order,
    looks: u32,
) -> Served
    requires looks { 0 < looks }
    ensures serves { ServesOrder (H.honest host.old) order looks
        (seen H.Host G.tells host.old gate.old)
        (seen H.Host G.tells host.new gate.new)
        (tasks_at (H.launches host.old) (H.dirs host.old)) (tasks_at (H.launches host.new) (H.dirs host.new)) result }
    ensures gate { KeepsGate (G.tells gate.old) (G.tells gate.new) }
    ensures honest { H.honest host.new ↔ H.honest host.old }
    ensures faults { H.faults host.old ≤ H.faults host.new }
{
    let Ok(mut buf) = vec![in rt.alloc(); 0_u8; PIECE] else {
        return Served::Memory;
    };
    if !opened(host, &order) {
        return lose(gate, &order, Why::NotStarted);
    }
    watch(rt, gate, host, &order, looks, &mut buf)
}
