//! How a command ends that lets a life go on.
ghost use Rattle.std.specs.Prelude.{◌≡◌, ◌⊎◌, ◌≤◌, ◌<◌, ◌+◌, false, true, max, ℕ, List, Option, length, reverse, vec_len, vec_capacity};
ghost use Rattle.build_life.specs.Lower.build_core.Builds.{StandsFor, setting_in};
ghost use Rattle.build_life.specs.Lower.build_core.Phases.{has_begun};
ghost use Rattle.build_life.specs.Lower.build_images.Images.{image_in};
ghost use Rattle.model_run.specs.declared.event.Event.{Event as AnEvent};
ghost use Rattle.model_run.specs.declared.site.Executor.{Executor as SiteExecutor};
ghost use Rattle.model_run.specs.State.{Setting};
ghost use Rattle.build_life.specs.Lower.durable_build.Standing.{IsWhole, Keeps};
ghost use Rattle.build_life.specs.Lower.build_store.Lives.{Lasts};
ghost use Rattle.agent_worker.specs.Crews.{IsCrew, members_of, others_of};
ghost use Rattle.build_commands.specs.declared.end_text.EndText.TheVariants.{Log};
ghost use Rattle.build_commands.specs.EndTexts.{Counts};
ghost use Rattle.build_commands.specs.Reporting.{KeepsRecords, Reports};
ghost use Rattle.build_commands.specs.Finishing.{TellsEnd, TellsRest};
ghost use Rattle.build_commands.specs.Launching.{LaunchedOnce};
ghost use Rattle.build_commands.specs.Leading.{IsLed};
ghost use Rattle.build_commands.specs.Living.{Finished, HostsStay};

use crate::build_status;
use crate::done::Ended;
use crate::end_text::EndText;
use crate::refusal::{Refusal, tell, tell_text};
use agent_worker::Crew;
use build_life::build_core::Build;
use build_life::durable_build::{DurableBuild, TakeFault};
use build_life::saved_thread::SavedThread;
use build_life::{Lived, Rest, go_on};
use generated_build::summary;
use jp_disk::Disk;
use jp_io::{Sink, Source};
use std::alloc::{AllocError, Global};
use std::sync::Wait;
use std::thread::Threads;
use std::time::Clock;
use task_host::Host;

/// Lets a life go on until its build has ended or nobody can, and writes what is asked for of it: its log, or its numbers.
///
/// | status | comes | text |
/// |---|---|---|
/// | 14 | only where the record that is due for the next event does not fit into the store | the length of its journal, and what the record would add |
/// | 5 | only where the disk counted a fault | `controller: disk failed` |
/// | 6 | only where an input is open and the answers counted a fault | `controller: read failed` |
/// | 7 | only where the sink counted a fault | a part of the text, from its beginning |
/// | 0, 1, 10, 11, 12 | only where the build has ended so | its text |
/// | 3 | only where no grant is due, no task is open, and no input is open or the answers were read to their end | the text so far |
/// | 8 | want of memory | `controller: out of memory` |
///
/// There are at most 126 hosts. `threads` says how many members work at once; with 1 they work one after the other, in their order. It may wait for ever, as the
/// answers and the tasks may.
pub fn finish<
    D: Disk + Send,
    R: SavedThread + Drop + Send,
    W: Threads + Wait + Sync + Clock + AllocGlobal,
    H: Host + Drop + Send,
    A: Source + Drop + Send,
    K: Sink,
>(
    rt: &W,
    durable: DurableBuild<D, R>,
    kind: EndText,
    hosts: Vec<H>,
    threads: usize,
    answers: A,
    out: &mut K,
) -> Ended<D, H, A>
    requires few { length hosts.items ≤ 126 }
    requires running { durable.stopped ≡ false }
    requires begun { has_begun durable.build.phase ≡ true }
    ensures stay { HostsStay H.Host hosts.items result.hosts.items }
    ensures launched { LaunchedOnce H.Host hosts.items result.hosts.items }
    ensures led { IsLed H.Host A.Source (max (setting_in durable.build).site.looks 1) (setting_in durable.build)
        hosts.items result.hosts.items answers result.answers result.history.items (K.written out.old) (K.written out.new) (K.faults out.old) (K.faults out.new) result.status }
    ensures reports { Reports (D.faults durable.journal.disk) (D.faults result.disk) (A.faults answers) (A.faults result.answers) (K.written out.old) (K.written out.new) (K.faults out.old) (K.faults out.new) result.status }
    ensures last { kind ≡ Log → (payloads : List (List ℕ)) → Keeps D.Disk R.stance durable payloads
        → ∥ KeepsRecords D.Disk (setting_in durable.build) durable.journal.disk payloads result.history.items result.disk (K.written out.old) (K.written out.new) (K.faults out.old) (K.faults out.new) result.status ∥₁ }
    ensures finishes { (setting : Setting) (entry : Option (List ℕ)) (origin : D) (before : List AnEvent)
        → Lasts D.Disk R.stance setting entry origin before before durable
        → Counts kind durable.records before
        → ∥ Finished D.Disk H.Host A.Source (max setting.site.looks 1)
        kind setting entry origin before hosts.items result.hosts.items answers result.answers result.history.items result.disk (D.faults durable.journal.disk) (D.faults result.disk)
        (K.written out.old) (K.written out.new) (K.faults out.old) (K.faults out.new) result.status ∥₁ }
{
    let alloc = rt.alloc();
    let looks = durable.build().site().looks.max(1);
    let executors = durable.build().site().executors.as_slice();
    match Crew::gather(alloc, executors, hosts, answers) {
        Ok(crew) => live(rt, durable, kind, crew, threads, looks, out),
        Err((hosts, answers)) => {
            let status = tell(out, &Refusal::OutOfMemory);
            Ended {
                status,
                disk: durable.close(),
                hosts,
                answers,
                history: Vec::new(alloc),
            }
        }
    }
}

/// The same with these members.
fn live<
    D: Disk + Send,
    R: SavedThread + Drop + Send,
    W: Threads + Wait + Sync + Clock + AllocGlobal,
    H: Host + Drop + Send,
    A: Source + Drop + Send,
    K: Sink,
>(
    rt: &W,
    durable: DurableBuild<D, R>,
    kind: EndText,
    crew: Crew<H, A>,
    threads: usize,
    looks: u32,
    out: &mut K,
) -> Ended<D, H, A>
    requires looks { 0 < looks }
    requires few { length crew.members.items ≤ 127 }
    requires running { durable.stopped ≡ false }
    requires begun { has_begun durable.build.phase ≡ true }
    requires crew { IsCrew crew.members.items }
    requires room { vec_len crew.others + vec_len crew.members ≤ vec_capacity crew.others + 1 }
    requires whole { IsWhole (setting_in durable.build) (image_in R.stance durable.build) }
    ensures stay { (executors : List SiteExecutor) (hosts : List H) (answers : A) → crew.members.items ≡ members_of executors hosts answers
        → crew.others.items ≡ reverse (others_of executors hosts) → HostsStay H.Host hosts result.hosts.items }
    ensures launched { (executors : List SiteExecutor) (hosts : List H) (answers : A) → crew.members.items ≡ members_of executors hosts answers
        → crew.others.items ≡ reverse (others_of executors hosts) → LaunchedOnce H.Host hosts result.hosts.items }
    ensures led { (setting : Setting) (hosts : List H) (answers : A) → crew.members.items ≡ members_of setting.site.executors hosts answers → crew.others.items ≡ reverse (others_of setting.site.executors hosts)
        → IsLed H.Host A.Source looks setting hosts result.hosts.items answers result.answers result.history.items
        (K.written out.old) (K.written out.new) (K.faults out.old) (K.faults out.new) result.status }
    ensures reports { (executors : List SiteExecutor) (hosts : List H) (answers : A) → crew.members.items ≡ members_of executors hosts answers
        → Reports (D.faults durable.journal.disk) (D.faults result.disk) (A.faults answers) (A.faults result.answers) (K.written out.old) (K.written out.new) (K.faults out.old) (K.faults out.new) result.status }
    ensures last { kind ≡ Log → (payloads : List (List ℕ)) → Keeps D.Disk R.stance durable payloads
        → ∥ KeepsRecords D.Disk (setting_in durable.build) durable.journal.disk payloads result.history.items result.disk (K.written out.old) (K.written out.new) (K.faults out.old) (K.faults out.new) result.status ∥₁ }
    ensures finishes { (hosts : List H) (answers : A) (setting : Setting) (entry : Option (List ℕ)) (origin : D) (before : List AnEvent) → crew.members.items ≡ members_of setting.site.executors hosts answers
        → crew.others.items ≡ reverse (others_of setting.site.executors hosts) → Lasts D.Disk R.stance setting entry origin before before durable
        → Counts kind durable.records before
        → ∥ Finished D.Disk H.Host A.Source looks
        kind setting entry origin before hosts result.hosts.items answers result.answers result.history.items result.disk (D.faults durable.journal.disk) (D.faults result.disk)
        (K.written out.old) (K.written out.new) (K.faults out.old) (K.faults out.new) result.status ∥₁ }
{
    let alloc = rt.alloc();
    let mut crew = crew;
    match go_on(rt, alloc, threads, durable, &mut crew.members, looks) {
        Ok(Lived { site, ended }) => {
            let status = tell_end(alloc, out, kind, site.build(), site.records(), ended);
            let (disk, history) = site.close();
            let (hosts, answers) = crew.dismiss();
            Ended {
                status,
                disk,
                hosts,
                answers,
                history,
            }
        }
        Err((fault, disk)) => {
            let status = tell(out, &Refusal::of_take(alloc, fault));
            let (hosts, answers) = crew.dismiss();
            Ended {
                status,
                disk,
                hosts,
                answers,
                history: Vec::new(alloc),
            }
        }
    }
}

/// Writes the text of a build that rests, or why it does not go on, and answers the exit status.
fn tell_end<R: SavedThread + Drop, K: Sink>(
    alloc: Global,
    out: &mut K,
    kind: EndText,
    build: &Build<R>,
    records: u64,
    ended: Result<Rest, TakeFault>,
) -> u8
    ensures { TellsEnd kind records (StandsFor R.stance build.now) (image_in R.stance build.now) (K.written out.old) (K.written out.new) (K.faults out.old) (K.faults out.new) ended result }
{
    match ended {
        Ok(Rest::AnswersFailed) => tell(out, &Refusal::ReadFailed),
        Ok(Rest::Ended | Rest::Waits) => tell_rest(alloc, out, kind, build, records),
        Err(fault) => tell(out, &Refusal::of_take(alloc, fault)),
    }
}

/// Writes the text of a build that rests, and answers the exit status.
fn tell_rest<R: SavedThread + Drop, K: Sink>(
    alloc: Global,
    out: &mut K,
    kind: EndText,
    build: &Build<R>,
    records: u64,
) -> u8
    ensures { TellsRest kind records (StandsFor R.stance build.now) (image_in R.stance build.now) (K.written out.old) (K.written out.new) (K.faults out.old) (K.faults out.new) result }
{
    let status = build_status(build);
    match kind {
        EndText::Log => tell_text(out, build.log(), status),
        EndText::Numbers(stages) => {
            let log = build.log().len();
            match summary(alloc, stages, build.nodes(), records, log, build.result()) {
                Ok(lines) => tell_text(out, lines.as_bytes(), status),
                Err(AllocError) => tell(out, &Refusal::OutOfMemory),
            }
        }
    }
}
