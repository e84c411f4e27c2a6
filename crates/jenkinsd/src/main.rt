//! The program: five commands over a Pipeline in a folder, in which its build is kept, and one over a build that it makes.
//!
//! `controller run DIR` reads the script in `DIR/Jenkinsfile` and what executors it has in `DIR/agents.json`, runs it and
//! writes the console log; each event of the build is kept in `DIR/program.dat` before the next one comes, so that
//! `controller resume DIR` can go on with it after a stop at any moment. `controller log DIR` and `controller graph DIR` write
//! what the build has come to, and `controller check DIR` looks for faults of the two files. Answer lines for the steps `input`
//! are read from standard input. `controller gen N` makes a script of N stages, runs it over a disk and hosts in memory, and writes
//! its numbers. All that it promises stands at [`controller::controller`], which `main` calls once, by
//! [`call_controller`].
//!
//! One controller at a time works on a folder: `run` and `resume` hold a lock on `DIR/program.lock`, which keeps which build
//! it is. `DIR/program.sum` has a sum for each record of the store.
#![tactic(auto)]

ghost use Rattle.std.specs.Prelude.{◌≡◌, IfOk, length};

use build_commands::{Refusal, tell};
use command_words::{Command, read_command};
use controller::{Ended, controller};
use cps_machine::MachineThread;
use jp_disk::{Bytes, Disk, MemoryDisk, Numbers};
use jp_io::{CleanSource, LazyFile, Sink, Source, StdSink, StdSource};
use real_edge::{FileDisk, FolderHost, LockedDisk, StorePaths, StoreUse};
use std::alloc::{AllocError, Global};
use std::fs::File;
use std::io::ErrorKind;
use std::process::{ExitCode, Processes};
use std::random::RandomSource;
use std::rt::{Env, Files};
use std::sync::Wait;
use std::thread::Threads;
use std::time::Clock;
use std::{env, io};
use task_host::{Host, MemoryHost};

fn main(rt: HostRuntime) -> ExitCode {
    let alloc = rt.alloc();
    let mut out = StdSink::new(io::writer(&rt));
    let Ok(words) = read_words(&rt, alloc) else {
        return ExitCode::from(tell(&mut out, &Refusal::OutOfMemory));
    };
    let Ok(read) = read_command(alloc, &words) else {
        return ExitCode::from(tell(&mut out, &Refusal::OutOfMemory));
    };
    if let Some((Command::Generate(_), _)) = read {
        return ExitCode::from(call_in_memory(&rt, words, &mut out));
    }
    let Ok(paths) = paths_of(alloc, read) else {
        return ExitCode::from(tell(&mut out, &Refusal::OutOfMemory));
    };
    let Paths {
        script,
        agents,
        store,
        identity,
        how,
    } = paths;
    let Ok(hosts) = hosts_of(&rt, alloc, identity.as_str()) else {
        return ExitCode::from(tell(&mut out, &Refusal::OutOfMemory));
    };
    let mut script = StdSource::new(LazyFile::new(&rt, script));
    let mut agents = StdSource::new(LazyFile::new(&rt, agents));
    let Ok(disk) = disk_at(&rt, alloc, store, how) else {
        return ExitCode::from(tell(&mut out, &Refusal::OutOfMemory));
    };
    let ended = call_controller(
        &rt,
        words,
        &mut script,
        &mut agents,
        disk,
        hosts,
        StdSource::new(rt.stdin()),
        &mut out,
    );
    ExitCode::from(ended.status)
}

/// Does the command that the words give over a disk and hosts in memory, and answers the exit status. It opens no file.
fn call_in_memory<W: Threads + Wait + Sync + Clock + AllocGlobal, K: Sink>(
    rt: &W,
    words: Vec<String>,
    out: &mut K,
) -> u8 {
    let alloc = rt.alloc();
    let Ok(hosts) = echoing_hosts(alloc) else {
        return tell(out, &Refusal::OutOfMemory);
    };
    let mut script = CleanSource::new(Vec::new(alloc));
    let mut agents = CleanSource::new(Vec::new(alloc));
    let ended = call_controller(
        rt,
        words,
        &mut script,
        &mut agents,
        MemoryDisk::new(Bytes::new(alloc), Numbers::new(alloc), None),
        hosts,
        CleanSource::new(Vec::new(alloc)),
        out,
    );
    ended.status
}

/// The call of the controller with threads of the machine's kind, in which all members work at once.
fn call_controller<
    W: Threads + Wait + Sync + Clock + AllocGlobal,
    D: Disk + Send,
    S: Source,
    H: Host + Drop + Send,
    A: Source + Drop + Send,
    K: Sink,
>(
    rt: &W,
    words: Vec<String>,
    script: &mut S,
    agents: &mut S,
    disk: D,
    hosts: Vec<H>,
    answers: A,
    out: &mut K,
) -> Ended<D, H, A>
    requires hosts { length hosts.items ≡ 64 }
{
    controller::<MachineThread, _, _, _, _, _, _>(
        rt,
        rt.alloc(),
        words,
        script,
        agents,
        disk,
        hosts,
        WORKERS,
        answers,
        out,
    )
}

/// How many hosts there are: one for each executor that a site may have.
const HOSTS: usize = 64;

/// How many work at once: an executor on each host, and the operator.
const WORKERS: usize = HOSTS + 1;

/// The hosts of this machine, for the build that has its identity in the file at this path.
fn hosts_of<'a, R: Files + Env + AllocGlobal + Eprint + Clock + Processes>(
    rt: &'a R,
    alloc: Global,
    identity: &'a str,
) -> Result<Vec<FolderHost<'a, R>>, AllocError>
    ensures hosts { IfOk result (λ hosts. length hosts.items ≡ 64) }
{
    let mut hosts = Vec::new(alloc);
    for _ in 0..HOSTS {
        hosts.push(FolderHost::new(rt, identity))?;
    }
    Ok(hosts)
}

/// Hosts in memory, on each of which a task writes `out` and its number, and ends.
fn echoing_hosts(alloc: Global) -> Result<Vec<MemoryHost>, AllocError>
    ensures hosts { IfOk result (λ hosts. length hosts.items ≡ 64) }
{
    let mut hosts = Vec::new(alloc);
    for _ in 0..HOSTS {
        hosts.push(MemoryHost::echoing(alloc))?;
    }
    Ok(hosts)
}

/// The paths of the files in a folder.
#[derive(Drop)]
struct Paths {
    script: String,
    agents: String,
    store: StorePaths,
    /// The file in which the store keeps which build it is, for the hosts.
    identity: String,
    /// For what the store is opened.
    how: StoreUse,
}

/// Puts together the paths that a command with its folder asks for. Where there is none no file is opened.
fn paths_of(alloc: Global, read: Option<(Command, &str)>) -> Result<Paths, AllocError> {
    let (folder, how) = match read {
        Some((Command::Run, folder)) => (folder, StoreUse::Begins),
        Some((Command::Resume, folder)) => (folder, StoreUse::GoesOn),
        Some((_, folder)) => (folder, StoreUse::Reads),
        None => ("", StoreUse::Reads),
    };
    let script = format!(in alloc; "{folder}/Jenkinsfile")?;
    let agents = format!(in alloc; "{folder}/agents.json")?;
    let identity = format!(in alloc; "{folder}/program.lock")?;
    let store = StorePaths {
        store: format!(in alloc; "{folder}/program.dat")?,
        sums: format!(in alloc; "{folder}/program.sum")?,
        identity: identity.clone()?,
    };
    Ok(Paths {
        script,
        agents,
        store,
        identity,
        how,
    })
}

/// The disk over the store at these paths. Where the store is written its lock is taken first, on the file that keeps which
/// build it is.
fn disk_at<'a, R: Files<File = File> + AllocGlobal + Eprint + RandomSource>(
    rt: &'a R,
    alloc: Global,
    store: StorePaths,
    how: StoreUse,
) -> Result<LockedDisk<'a, R, FileDisk<'a, R>>, AllocError> {
    match how {
        StoreUse::Reads => Ok(LockedDisk::unlocked(FileDisk::of_store(rt, store, how))),
        StoreUse::Begins | StoreUse::GoesOn => locked_disk(rt, alloc, store, how),
    }
}

/// The disk over the store at these paths, whose lock is taken before its first use.
fn locked_disk<'a, R: Files<File = File> + AllocGlobal + Eprint + RandomSource>(
    rt: &'a R,
    alloc: Global,
    store: StorePaths,
    how: StoreUse,
) -> Result<LockedDisk<'a, R, FileDisk<'a, R>>, AllocError> {
    let lock = String::from_str(alloc, store.identity.as_str())?;
    Ok(LockedDisk::locked(rt, lock, FileDisk::of_store(rt, store, how)))
}

/// The words of the command line. Where one is not UTF-8 there are none, which is no command.
fn read_words<R: Env + AllocGlobal>(rt: &R, alloc: Global) -> Result<Vec<String>, AllocError> {
    match env::args(rt) {
        Ok(words) => words.collect(alloc),
        Err(error) if error.kind() == ErrorKind::OutOfMemory => Err(AllocError),
        Err(_) => Ok(Vec::new(alloc)),
    }
}

#[cfg(test)]
mod tests;
