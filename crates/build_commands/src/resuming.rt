//! The command that goes on with the build of a store.

ghost use Rattle.std.specs.Prelude.{◌≡◌, ◌≤◌, ℕ, List, Some, length};
ghost use Rattle.model_run.specs.declared.event.Event.{Event as AnEvent};
ghost use Rattle.model_run.specs.State.{Setting};
ghost use Rattle.build_life.specs.Lower.build_store.Saved.{Stores};
ghost use Rattle.build_commands.specs.Resuming.{Reopens, Resumes};

use crate::done::Ended;
use crate::end_text::EndText;
use crate::finishing::finish;
use crate::refusal::{Refusal, tell};
use build_life::build_store::reopen;
use build_life::saved_thread::SavedThread;
use jp_disk::Disk;
use jp_io::{Sink, Source};
use std::sync::Wait;
use std::thread::Threads;
use std::time::Clock;
use task_host::Host;

/// Goes on with the build of a store until it has ended or nobody can, and writes its log.
///
/// | status | comes | text |
/// |---|---|---|
/// | 9 | only where the store has no record, or is damaged | `program.dat: no build`, or the place of the damage |
/// | 14 | only where the record that is due for the next event does not fit into the store | the length of its journal, and what the record would add |
/// | 5 | only where the disk counted a fault | `controller: disk failed` |
/// | 6 | only where an input is open and the answers counted a fault | `controller: read failed` |
/// | 7 | only where the sink counted a fault | a part of the log, from its beginning |
/// | 0, 1, 10, 11, 12 | only where the build has ended so | its log |
/// | 3 | only where no grant is due, no task is open, and no input is open or the answers were read to their end | the log so far |
/// | 8 | want of memory | `controller: out of memory` |
///
/// There are at most 126 hosts. `threads` says how many members work at once; with 1 they work one after the other, in their order. It may wait for ever, as the
/// answers and the tasks may.
pub fn resume<
    D: Disk + Send,
    R: SavedThread + Drop + Send,
    W: Threads + Wait + Sync + Clock + AllocGlobal,
    H: Host + Drop + Send,
    A: Source + Drop + Send,
    K: Sink,
>(rt: &W, disk: D, hosts: Vec<H>, threads: usize, answers: A, out: &mut K) -> Ended<D, H, A>
    requires few { length hosts.items ≤ 126 }
    ensures reopens { Reopens D.Disk H.Host A.Source hosts.items result.hosts.items answers result.answers result.history.items
        disk result.disk (K.written out.old) (K.written out.new) (K.faults out.old) (K.faults out.new) result.status }
    ensures resumes { (file : List ℕ) → D.reads disk ≡ Some file → (setting : Setting) (events : List AnEvent) → Stores setting events file
        → Resumes D.Disk H.Host A.Source hosts.items result.hosts.items answers result.answers result.history.items
        setting events disk result.disk (K.written out.old) (K.written out.new) (K.faults out.old) (K.faults out.new) result.status }
{
    let alloc = rt.alloc();
    match reopen::<D, R>(alloc, disk) {
        Ok(durable) => finish(rt, durable, EndText::Log, hosts, threads, answers, out),
        Err((fault, disk)) => {
            let status = tell(out, &Refusal::of_store(alloc, fault));
            Ended {
                status,
                disk,
                hosts,
                answers,
                history: Vec::new(alloc),
            }
        }
    }
}
