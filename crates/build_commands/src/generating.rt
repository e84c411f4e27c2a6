//! The command that begins the build of a script that it makes.

ghost use Rattle.std.specs.Prelude.{◌≤◌, length};
ghost use Rattle.generated_build.specs.Files.{agents_of_any, script_of};
ghost use Rattle.build_commands.specs.declared.end_text.EndText.TheVariants.{Numbers};
ghost use Rattle.build_commands.specs.Beginning.{Runs};
ghost use Rattle.build_commands.specs.Plans.{Plans, whole};

use crate::Files;
use crate::done::Ended;
use crate::end_text::EndText;
use crate::plan::{Plan, judge};
use crate::refusal::Refusal;
use crate::running::build_planned;
use build_life::saved_thread::SavedThread;
use generated_build::{GeneratedFiles, generated_files};
use jp_disk::Disk;
use jp_io::{Sink, Source};
use std::alloc::{AllocError, Global};
use std::sync::Wait;
use std::thread::Threads;
use std::time::Clock;
use task_host::Host;

/// Makes a script of so many stages and an agents file, goes on with their build until it has ended or nobody can, and writes its
/// numbers.
///
/// It is [`run`](crate::run) on these two files, with the numbers in place of the log, and reads no source for them. So each status comes
/// as it says there; 4 and 13 would come only where the files that are made had a fault, and 8 may come behind the end of the build too. There are
/// at most 126 hosts.
pub fn generate<
    D: Disk + Send,
    R: SavedThread + Drop + Send,
    W: Threads + Wait + Sync + Clock + AllocGlobal,
    H: Host + Drop + Send,
    A: Source + Drop + Send,
    K: Sink,
>(
    rt: &W,
    stages: u32,
    disk: D,
    hosts: Vec<H>,
    threads: usize,
    answers: A,
    out: &mut K,
) -> Ended<D, H, A>
    requires few { length hosts.items ≤ 126 }
    ensures { Runs D.Disk R.stance H.Host A.Source disk result.disk hosts.items result.hosts.items answers result.answers result.history.items
        (Numbers stages) (K.written out.old) (K.written out.new) (K.faults out.old) (K.faults out.new) (whole (script_of stages)) (whole agents_of_any) result.status }
{
    let plan = generated_plan(rt.alloc(), stages);
    build_planned::<D, R, W, H, A, K>(
        rt,
        plan,
        EndText::Numbers(stages),
        disk,
        hosts,
        threads,
        answers,
        out,
    )
}

/// The script of so many stages and its agents file, judged.
fn generated_plan(alloc: Global, stages: u32) -> Result<Plan, Refusal>
    ensures { Plans (whole (script_of stages)) (whole agents_of_any) result }
{
    match generated_files(alloc, stages) {
        Ok(GeneratedFiles { script, agents }) => judge(alloc, Files { script, agents }),
        Err(AllocError) => Err(Refusal::OutOfMemory),
    }
}
