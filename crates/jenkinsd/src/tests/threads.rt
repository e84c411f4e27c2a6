//! Calls whose members have a thread each.
ghost use Rattle.std.specs.Prelude.{◌≡◌, IfOk, length};

use super::*;
use meeting_hosts::MeetingHost;
use std::sync::atomic::AtomicBool;

/// The usual script: a build, two tests at the same time, and what follows them.
const USUAL: &str = r#"#!/usr/bin/env groovy
def version
node('linux') {
    stage('Prepare') {
        version = sh(script: 'cat VERSION', returnStdout: true).trim()
        echo "version ${version}"
    }
}
stage('Test') {
    def runs = [:]
    for (name in ['unit', 'web']) {
        def n = name
        runs[n] = {
            node('linux') { sh "make ${n}" }
        }
    }
    parallel runs
}
stage('Ship') {
    node('linux-1') { withEnv(['MODE=prod']) { sh 'make ship' } }
}
"#;

/// Its agents.
const USUAL_AGENTS: &str =
    r#"{"job":"demo","agents":[{"name":"linux-1","root":"/srv/a","labels":["linux"],"executors":1},{"name":"linux-2","root":"/srv/b","labels":["linux"],"executors":1}]}"#;

/// Its log up to the two tests, where each task writes its number, and nothing that is kept apart.
const BEFORE_TESTS: &str = "[Pipeline] Start of Pipeline
[Pipeline] node
Running on linux-1 in /srv/a/workspace/demo
[Pipeline] {
[Pipeline] stage
[Pipeline] { (Prepare)
[Pipeline] sh
out 2
[Pipeline] echo
version\x20
[Pipeline] }
[Pipeline] // stage
[Pipeline] }
[Pipeline] // node
[Pipeline] stage
[Pipeline] { (Test)
[Pipeline] parallel
[Pipeline] { (Branch: unit)
[Pipeline] { (Branch: web)
[Pipeline] node
[Pipeline] node
Running on linux-1 in /srv/a/workspace/demo
[Pipeline] {
[Pipeline] sh
Running on linux-2 in /srv/b/workspace/demo
[Pipeline] {
[Pipeline] sh
";

/// Its log of the two tests, in each order in which their outputs and their ends may be taken.
const TESTS: [&str; 4] = [
    "out 5\n[Pipeline] }\n[Pipeline] // node\n[Pipeline] }\nout 6\n[Pipeline] }\n[Pipeline] // node\n[Pipeline] }\n",
    "out 5\nout 6\n[Pipeline] }\n[Pipeline] // node\n[Pipeline] }\n[Pipeline] }\n[Pipeline] // node\n[Pipeline] }\n",
    "out 6\nout 5\n[Pipeline] }\n[Pipeline] // node\n[Pipeline] }\n[Pipeline] }\n[Pipeline] // node\n[Pipeline] }\n",
    "out 6\n[Pipeline] }\n[Pipeline] // node\n[Pipeline] }\nout 5\n[Pipeline] }\n[Pipeline] // node\n[Pipeline] }\n",
];

/// Its log behind the two tests.
const BEHIND_TESTS: &str = "[Pipeline] // parallel
[Pipeline] }
[Pipeline] // stage
[Pipeline] stage
[Pipeline] { (Ship)
[Pipeline] node
Running on linux-1 in /srv/a/workspace/demo
[Pipeline] {
[Pipeline] withEnv
[Pipeline] {
[Pipeline] sh
out 8
[Pipeline] }
[Pipeline] // withEnv
[Pipeline] }
[Pipeline] // node
[Pipeline] }
[Pipeline] // stage
[Pipeline] End of Pipeline
Finished: SUCCESS
";

/// Whether it is the log of the usual script, up to the order in which the outputs and the ends of its tests were taken.
fn is_usual(log: &[u8]) -> bool {
    let Some(rest) = log.strip_prefix(BEFORE_TESTS.as_bytes()) else {
        return false;
    };
    let Some(tests) = rest.strip_suffix(BEHIND_TESTS.as_bytes()) else {
        return false;
    };
    TESTS.iter().any(|text| text.as_bytes() == tests)
}

/// The tasks that the host of an executor has launched.
fn launched(hosts: &[MemoryHost], executor: usize) -> &[u32] {
    match hosts.get(executor) {
        Some(host) => host.launches(),
        None => &[],
    }
}

/// What the usual script comes to.
fn usual<W: Threads + Wait + Sync + Clock + AllocGlobal>(
    rt: &W,
) -> Result<Called<MemoryHost>, AllocError> {
    let streams = open_streams(rt.alloc(), [USUAL, USUAL_AGENTS, ""], NONE)?;
    let hosts = echoing_hosts(rt.alloc())?;
    Ok(call(rt, words(rt.alloc(), "run", "demo")?, streams, hosts))
}

#[test]
fn the_usual_script_ends_in_threads_with_each_task_launched_once(
    rt: HostRuntime,
) -> Result<(), Fail> {
    let called = usual(&rt)?;
    assert_eq!(rt; called.status, 0);
    assert!(rt; is_usual(called.out.bytes()));
    assert_eq!(rt; launched(&called.hosts, 0), [2, 5, 8].as_slice());
    assert_eq!(rt; launched(&called.hosts, 1), [6].as_slice());
    Ok(())
}

/// A task on each of two agents at the same time.
const TWO_AT_ONCE: &str =
    "parallel one: { node('a') { sh 'one' } }, two: { node('b') { sh 'two' } }";

/// The agents, with an executor each, of which a task may be silent for so many looks.
const PATIENT: &str =
    r#"{"job":"demo","looks":1000000,"agents":[{"name":"a","root":"/a","executors":1},{"name":"b","root":"/b","executors":1}]}"#;

/// The same for three looks.
const IMPATIENT: &str =
    r#"{"job":"demo","looks":3,"agents":[{"name":"a","root":"/a","executors":1},{"name":"b","root":"/b","executors":1}]}"#;

/// The hosts of a call, of which a task on the first runs until one on another has started, and one on another until one on
/// the first has.
fn meeting_hosts<'a, C: Clock>(
    clock: &'a C,
    alloc: Global,
    first: &'a AtomicBool,
    other: &'a AtomicBool,
) -> Result<Vec<MeetingHost<'a, C>>, AllocError>
    ensures { IfOk result (λ hosts. length hosts.items ≡ 64) }
{
    let mut hosts = Vec::new(alloc);
    for i in 0..HOSTS {
        let (started, awaited) = if i == 0 {
            (first, other)
        } else {
            (other, first)
        };
        let host = MemoryHost::echoing(alloc);
        hosts.push(MeetingHost::new(clock, host, started, awaited))?;
    }
    Ok(hosts)
}

/// The status with which two tasks end that wait for one another.
fn meeting<W: Threads + Wait + Sync + Clock + AllocGlobal>(rt: &W) -> Result<u8, AllocError> {
    let (first, other) = (AtomicBool::new(false), AtomicBool::new(false));
    let streams = open_streams(rt.alloc(), [TWO_AT_ONCE, PATIENT, ""], NONE)?;
    let hosts = meeting_hosts(rt, rt.alloc(), &first, &other)?;
    Ok(call(rt, words(rt.alloc(), "run", "demo")?, streams, hosts).status)
}

/// The status of a call over an empty store, in which one member works at a time.
fn status_in_turn<W: Threads + Wait + Sync + Clock + AllocGlobal, H: Host + Drop + Send>(
    rt: &W,
    words: Vec<String>,
    streams: Streams,
    hosts: Vec<H>,
) -> u8
    requires { length hosts.items ≡ 64 }
{
    let Streams {
        mut script,
        mut agents,
        answers,
        mut out,
    } = streams;
    let alloc = rt.alloc();
    let disk = MemoryDisk::new(Bytes::new(alloc), Numbers::new(alloc), None);
    let ended = controller::<MachineThread, _, _, _, _, _, _>(
        rt,
        alloc,
        words,
        &mut script,
        &mut agents,
        disk,
        hosts,
        1,
        answers,
        &mut out,
    );
    ended.status
}

/// The status with which they end where one member works at a time.
fn meeting_in_turn<W: Threads + Wait + Sync + Clock + AllocGlobal>(
    rt: &W,
) -> Result<u8, AllocError> {
    let (first, other) = (AtomicBool::new(false), AtomicBool::new(false));
    let streams = open_streams(rt.alloc(), [TWO_AT_ONCE, IMPATIENT, ""], NONE)?;
    let hosts = meeting_hosts(rt, rt.alloc(), &first, &other)?;
    Ok(status_in_turn(rt, words(rt.alloc(), "run", "demo")?, streams, hosts))
}

#[test]
fn two_tasks_wait_for_one_another_and_end_in_threads_alone(rt: HostRuntime) -> Result<(), Fail> {
    assert_eq!(rt; meeting(&rt)?, 0);
    assert_eq!(rt; meeting_in_turn(&rt)?, 1);
    Ok(())
}
