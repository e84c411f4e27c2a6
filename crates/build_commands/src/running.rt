//! The command that begins the build of a script.

ghost use Rattle.std.specs.Prelude.{◌+◌, ◌≤◌, IfOk, length};
ghost use Rattle.jp_io.specs.Whole.{TakesAtMost};
ghost use Rattle.build_commands.specs.Files.{agents_limit, script_limit, Builds};
ghost use Rattle.build_commands.specs.Inputs.{Input, taken_from};
ghost use Rattle.build_commands.specs.declared.end_text.EndText.TheVariants.{Log};
ghost use Rattle.build_commands.specs.Beginning.{Begins, Runs};
ghost use Rattle.build_commands.specs.Plans.{Plans};

use crate::done::Ended;
use crate::end_text::EndText;
use crate::finishing::finish;
use crate::plan::{Plan, read_plan};
use crate::refusal::{Refusal, tell};
use build_life::build_store;
use build_life::saved_thread::SavedThread;
use jp_disk::Disk;
use jp_io::{Sink, Source};
use std::sync::Wait;
use std::thread::Threads;
use std::time::Clock;
use task_host::Host;

/// Makes the store of the build of a script, goes on with the build until it has ended or nobody can, and writes its log.
///
/// | status | comes | text |
/// |---|---|---|
/// | 6 | only where a source counted a fault; of the answers only where an input is open | `controller: read failed` |
/// | 13 | exactly where the agents file has a fault | its path and kind |
/// | 4 | exactly where the script has a fault or is too long | the place of its first fault |
/// | 9 | exactly where the store has a record, or the beginning of one | `program.dat: already has a build` |
/// | 14 | only where the record that is due for the next event does not fit into the store | the length of its journal, and what the record would add |
/// | 5 | only where the disk counted a fault | `controller: disk failed` |
/// | 7 | only where the sink counted a fault | a part of the log, from its beginning |
/// | 0, 1, 10, 11, 12 | only where the build has ended so | its log |
/// | 3 | only where no grant is due, no task is open, and no input is open or the answers were read to their end | the log so far |
/// | 8 | want of memory | `controller: out of memory` |
///
/// The disk is called only where script and agents file are without a fault. Each of their sources is asked for at most one byte
/// more than its file may have. There are at most 126 hosts. `threads` says how many members work at once; with 1 they work one after the other, in their order. It
/// may wait for ever, as the answers and the tasks may.
pub fn run<
    D: Disk + Send,
    R: SavedThread + Drop + Send,
    W: Threads + Wait + Sync + Clock + AllocGlobal,
    S: Source,
    H: Host + Drop + Send,
    A: Source + Drop + Send,
    K: Sink,
>(
    rt: &W,
    script: &mut S,
    agents: &mut S,
    disk: D,
    hosts: Vec<H>,
    threads: usize,
    answers: A,
    out: &mut K,
) -> Ended<D, H, A>
    requires few { length hosts.items ≤ 126 }
    ensures runs { Runs D.Disk R.stance H.Host A.Source disk result.disk hosts.items result.hosts.items answers result.answers result.history.items
        Log (K.written out.old) (K.written out.new) (K.faults out.old) (K.faults out.new) (taken_from S.Source script.old script.new) (taken_from S.Source agents.old agents.new) result.status }
    ensures most_script { TakesAtMost (script_limit + 1) (S.left script.old) (S.left script.new) }
    ensures most_agents { TakesAtMost (agents_limit + 1) (S.left agents.old) (S.left agents.new) }
{
    let plan = read_plan(rt.alloc(), script, agents);
    build_planned::<D, R, W, H, A, K>(rt, plan, EndText::Log, disk, hosts, threads, answers, out)
}

/// Makes the store of the build of a script and an agents file, where they can be built, and goes on with it; and writes what is asked for
/// of it.
pub(crate) fn build_planned<
    D: Disk + Send,
    R: SavedThread + Drop + Send,
    W: Threads + Wait + Sync + Clock + AllocGlobal,
    H: Host + Drop + Send,
    A: Source + Drop + Send,
    K: Sink,
>(
    rt: &W,
    plan: Result<Plan, Refusal>,
    kind: EndText,
    disk: D,
    hosts: Vec<H>,
    threads: usize,
    answers: A,
    out: &mut K,
) -> Ended<D, H, A>
    requires few { length hosts.items ≤ 126 }
    requires builds { IfOk plan (λ plan. Builds plan.script plan.agents plan.tree plan.site) }
    ensures { (script agents : Input) → Plans script agents plan
        → Runs D.Disk R.stance H.Host A.Source disk result.disk hosts.items result.hosts.items answers result.answers result.history.items
        kind (K.written out.old) (K.written out.new) (K.faults out.old) (K.faults out.new) script agents result.status }
{
    match plan {
        Ok(plan) => begin::<D, R, W, H, A, K>(rt, plan, kind, disk, hosts, threads, answers, out),
        Err(refusal) => {
            let status = tell(out, &refusal);
            Ended {
                status,
                disk,
                hosts,
                answers,
                history: Vec::new(rt.alloc()),
            }
        }
    }
}

/// The same where script and agents file can be built.
fn begin<
    D: Disk + Send,
    R: SavedThread + Drop + Send,
    W: Threads + Wait + Sync + Clock + AllocGlobal,
    H: Host + Drop + Send,
    A: Source + Drop + Send,
    K: Sink,
>(
    rt: &W,
    plan: Plan,
    kind: EndText,
    disk: D,
    hosts: Vec<H>,
    threads: usize,
    answers: A,
    out: &mut K,
) -> Ended<D, H, A>
    requires few { length hosts.items ≤ 126 }
    requires builds { Builds plan.script plan.agents plan.tree plan.site }
    ensures { Begins D.Disk R.stance H.Host A.Source disk result.disk hosts.items result.hosts.items answers result.answers result.history.items
        kind (K.written out.old) (K.written out.new) (K.faults out.old) (K.faults out.new) plan.script plan.agents plan.tree plan.site result.status }
{
    let alloc = rt.alloc();
    let Plan {
        script,
        agents,
        tree,
        site,
    } = plan;
    match build_store::begin::<D, R>(alloc, disk, tree, site, script, agents) {
        Ok(durable) => finish(rt, durable, kind, hosts, threads, answers, out),
        Err((fault, disk)) => {
            let status = tell(out, &Refusal::of_begin(alloc, fault));
            Ended {
                status,
                disk,
                hosts,
                answers,
                history: Vec::new(alloc),
            }
        }
    }
}
