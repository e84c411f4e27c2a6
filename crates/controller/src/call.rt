//! The call that the program makes.
ghost use Rattle.std.specs.Prelude.{◌≡◌, ◌≤◌, length, map, string_bytes};
ghost use Rattle.build_commands.specs.Inputs.{taken_from};
ghost use Rattle.build_commands.specs.Writing as writing;
ghost use Rattle.controller.specs.Call.{call_of, devices, usage_text};
ghost use Rattle.controller.specs.Commands.{Does};
ghost use Rattle.controller.specs.Promises.{Promises};

use build_commands::saved_thread::SavedThread;
use build_commands::{Done, Ended, check, generate, graph, log, resume, run};
use command_words::{Command, command_in};
use jp_disk::Disk;
use jp_io::{Sink, Source, write_all};
use std::alloc::Global;
use std::sync::Wait;
use std::thread::Threads;
use std::time::Clock;
use task_host::Host;

/// Does the command that the words give, over the store of a build.
///
/// The words are a command exactly where there are three of them, and the second is `run`, `resume`, `log`, `graph` or `check` with a
/// third, the folder, that is not empty and does not begin with `-`; or the second is `gen`, and the third is a number N from 1 to 2000 in
/// decimal. `run` begins the build of a script and `resume` goes on with that of a store; both let its hosts work until it has ended or
/// nobody can go on, and write its log. `gen` is `run` on a script of N stages and an agents file that it makes, and writes six lines with
/// the numbers of its build in place of the log. `log` and `graph` write what the build of a store has come to, and change no byte of it.
/// `check` looks for faults of a script and its agents file, and does not call the disk.
///
/// | status | comes | text |
/// |---|---|---|
/// | 2 | exactly where the words are no command | how to use the program |
/// | 6 | of `run` and `check`, where the source of a file counted a fault; of `run`, `resume` and `gen`, only where that of the answers did while an input was open | `controller: read failed` |
/// | 13 | of `run`, `check` and `gen`, exactly where the agents file has a fault | its path and kind |
/// | 4 | of `run`, `check` and `gen`, exactly where the script has a fault or is too long | the place of its first fault |
/// | 9 | of `run` and `gen`, exactly where they find a record, or the beginning of one | `program.dat: already has a build` |
/// | 9 | of `resume`, `log` and `graph`, exactly where they find no record, or a damaged one | `program.dat: no build`, or the place of the damage |
/// | 14 | only where the record that is due for the next event does not fit into the store | the length of its journal, and what the record would add |
/// | 5 | only where the disk counted a fault | `controller: disk failed` |
/// | 7 | only where the sink counted a fault | a part of the text, from its beginning |
/// | 0, 1, 10, 11, 12 | 0 alone for `log`, `graph` and `check`; else only where the build has ended so | the log, or the command's text |
/// | 3 | only where no grant is due, no task is open, and no input is open or the answers were read to their end | the log so far, or of `gen` its six lines |
/// | 8 | want of memory | `controller: out of memory` |
///
/// Each status yields to those above it, 9 and 14 also to a 5 that ended the call first, and all but 2 and the 6 of a file to want of
/// memory.
///
/// There are 64 hosts: host i runs the tasks of executor i, and each comes back at its place. A command that lets no build go on
/// hands hosts and answers back as they were, and its history is empty. `threads` says how many of the executors and the operator work at once, each in a thread
/// of its own as far as threads can be made; with 1 they work one after the other, in their order.
///
/// What is said of the bytes of a source, the sink or the disk holds where it tells them. Of a disk that tells nothing, as a real
/// file, it still holds that `run` writes the log of the build that it has begun, with the status of that build. It may wait for
/// ever, as the answers and the tasks may.
pub fn controller<
    R: SavedThread + Drop + Send,
    W: Threads + Wait + Sync + Clock + AllocGlobal,
    D: Disk + Send,
    S: Source,
    H: Host + Drop + Send,
    A: Source + Drop + Send,
    K: Sink,
>(
    rt: &W,
    alloc: Global,
    words: Vec<String>,
    script: &mut S,
    agents: &mut S,
    disk: D,
    hosts: Vec<H>,
    threads: usize,
    answers: A,
    out: &mut K,
) -> Ended<D, H, A>
    requires hosts { length hosts.items ≡ 64 }
    ensures promises { Promises
        (devices D.Disk H.Host A.Source)
        (call_of (map string_bytes words.items) (taken_from S.Source script.old script.new) (taken_from S.Source agents.old agents.new)
        disk result.disk hosts.items result.hosts.items answers result.answers result.history.items (K.written out.old) (K.written out.new) (K.faults out.old) (K.faults out.new) result.status) }
{
    do_command::<R, W, D, S, H, A, K>(
        rt, alloc, &words, script, agents, disk, hosts, threads, answers, out,
    )
}

/// Does the command that the words give.
fn do_command<
    R: SavedThread + Drop + Send,
    W: Threads + Wait + Sync + Clock + AllocGlobal,
    D: Disk + Send,
    S: Source,
    H: Host + Drop + Send,
    A: Source + Drop + Send,
    K: Sink,
>(
    rt: &W,
    alloc: Global,
    words: &[String],
    script: &mut S,
    agents: &mut S,
    disk: D,
    hosts: Vec<H>,
    threads: usize,
    answers: A,
    out: &mut K,
) -> Ended<D, H, A>
    requires few { length hosts.items ≤ 126 }
    ensures does { Does
        (devices D.Disk H.Host A.Source) R.stance
        (call_of (map string_bytes words.now) (taken_from S.Source script.old script.new) (taken_from S.Source agents.old agents.new)
        disk result.disk hosts.items result.hosts.items answers result.answers result.history.items (K.written out.old) (K.written out.new) (K.faults out.old) (K.faults out.new) result.status) }
{
    match command_in(words) {
        Some((Command::Run, _)) => {
            run::<D, R, W, S, H, A, K>(rt, script, agents, disk, hosts, threads, answers, out)
        }
        Some((Command::Generate(stages), _)) => {
            generate::<D, R, W, H, A, K>(rt, stages, disk, hosts, threads, answers, out)
        }
        Some((Command::Resume, _)) => {
            resume::<D, R, W, H, A, K>(rt, disk, hosts, threads, answers, out)
        }
        Some((Command::Log, _)) => {
            let Done { status, disk } = log::<D, R, K>(alloc, disk, out);
            Ended {
                status,
                disk,
                hosts,
                answers,
                history: Vec::new(alloc),
            }
        }
        Some((Command::Graph, _)) => {
            let Done { status, disk } = graph::<D, R, K>(alloc, disk, out);
            Ended {
                status,
                disk,
                hosts,
                answers,
                history: Vec::new(alloc),
            }
        }
        Some((Command::Check, _)) => {
            let status = check(alloc, script, agents, out);
            Ended {
                status,
                disk,
                hosts,
                answers,
                history: Vec::new(alloc),
            }
        }
        None => {
            let status = tell_usage(out);
            Ended {
                status,
                disk,
                hosts,
                answers,
                history: Vec::new(alloc),
            }
        }
    }
}

/// How to use the program.
const USAGE: &[u8] = b"usage: controller run|resume|log|graph|check DIR\n       controller gen N\n";

/// Says how to use the program, and answers the exit status.
fn tell_usage<K: Sink>(out: &mut K) -> u8
    ensures status { result ≡ 2 }
    ensures text { writing.Tells (K.written out.old) (K.written out.new) (K.faults out.old) (K.faults out.new) usage_text }
{
    let _ = write_all(out, USAGE);
    2
}
