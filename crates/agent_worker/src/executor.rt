//! An executor: it claims the orders of its tasks and serves them.

ghost use Rattle.std.specs.Prelude.{◌≡◌, ◌≤◌, ◌<◌, ◌↔◌};
ghost use Rattle.agent_worker.specs.Gate.{Stays};
ghost use Rattle.agent_worker.specs.Working.{Works, telling};

use crate::{Claim, Gate, Served, Worked, serve};
use std::sync::Wait;
use task_host::Host;

/// How often an executor that finds nobody at work pauses and claims once more before it rests. Whoever is at work has no
/// claim open for a moment between two tasks, and the first claims of a round come one after the other: an executor that
/// rested then would have no part in the round. On real folders seven pauses take an eighth of a second at first.
const LAST_CLAIMS: u32 = 7;

/// Claims and serves orders of an executor until there are none. Where others are at work it pauses, since what they
/// report may give it a task; so it does some times where nobody is ([`LAST_CLAIMS`]).
pub(crate) fn work_executor<R: Wait + AllocGlobal, G: Gate, H: Host>(
    rt: &R,
    gate: &mut G,
    number: u32,
    host: &mut H,
    looks: u32,
) -> Worked
    requires looks { 0 < looks }
    ensures works { Works number looks (H.honest host.old)
        (telling H.Host G.tells host.old gate.old)
        (telling H.Host G.tells host.new gate.new) result }
    ensures lines { Stays (G.tells gate.old).lines (G.tells gate.new).lines }
    ensures is_open { (G.tells gate.new).is_open ≡ (G.tells gate.old).is_open }
    ensures honest { H.honest host.new ↔ H.honest host.old }
    ensures faults { H.faults host.old ≤ H.faults host.new }
{
    let mut alone: u32 = 0;
    for _ in rt.forever() {
        match gate.claim(number) {
            Claim::Order(order) => match serve(rt, gate, host, order, looks) {
                Served::Done => alone = 0,
                Served::Finished => alone = 0,
                Served::Stopped => return Worked::Stopped,
                Served::Memory => {
                    gate.halt();
                    return Worked::Memory;
                }
            },
            Claim::Idle { busy: _ } => {
                alone = 0;
                host.pause();
            }
            Claim::Rest => {
                if alone >= LAST_CLAIMS {
                    return Worked::Rest;
                }
                alone += 1;
                host.pause();
            }
            Claim::Stopped => return Worked::Stopped,
            Claim::Memory => {
                gate.halt();
                return Worked::Memory;
            }
        }
    }
    unreachable!()
}
