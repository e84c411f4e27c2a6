ghost use Rattle.std.specs.Prelude.{◌≡◌, length};

use super::*;
use jp_io::{MemorySink, MemorySource};
use std::test::Fail;

mod folders;
mod threads;

const AGENTS: &str = r#"{"job":"demo","agents":[{"name":"m","root":"/w","executors":1}]}"#;

/// The bytes of a file, of which the read with this number fails; no call has the number 0.
fn source(alloc: Global, text: &str, fails_at: u64) -> Result<MemorySource, AllocError> {
    let bytes = Vec::from_slice(alloc, text.as_bytes())?;
    Ok(MemorySource::new(bytes, Vec::from_slice(alloc, &[fails_at])?))
}

/// The words of a command, with this one behind it.
fn words(alloc: Global, command: &str, operand: &str) -> Result<Vec<String>, AllocError> {
    let mut words = Vec::new(alloc);
    for word in ["controller", command, operand] {
        words.push(String::from_str(alloc, word)?)?;
    }
    Ok(words)
}

/// The sources and the sink of a call.
#[derive(Drop)]
struct Streams {
    script: MemorySource,
    agents: MemorySource,
    answers: MemorySource,
    out: MemorySink,
}

/// The sources of a script, an agents file and answer lines, and a sink, where the call of each with its number fails.
fn open_streams(
    alloc: Global,
    [script, agents, answers]: [&str; 3],
    fails: [u64; 4],
) -> Result<Streams, AllocError> {
    Ok(Streams {
        script: source(alloc, script, fails[0])?,
        agents: source(alloc, agents, fails[1])?,
        answers: source(alloc, answers, fails[2])?,
        out: MemorySink::new(alloc, Vec::from_slice(alloc, &[fails[3]])?),
    })
}

/// What a call came to.
#[derive(Drop)]
struct Called<H> {
    status: u8,
    hosts: Vec<H>,
    out: MemorySink,
}

/// A call over an empty store, as the program makes it.
fn call<W: Threads + Wait + Sync + Clock + AllocGlobal, H: Host + Drop + Send>(
    rt: &W,
    words: Vec<String>,
    streams: Streams,
    hosts: Vec<H>,
) -> Called<H>
    requires { length hosts.items ≡ 64 }
{
    let Streams {
        mut script,
        mut agents,
        answers,
        mut out,
    } = streams;
    let alloc = rt.alloc();
    let disk = MemoryDisk::new(Bytes::new(alloc), Numbers::new(alloc), None);
    let ended = call_controller(
        rt,
        words,
        &mut script,
        &mut agents,
        disk,
        hosts,
        answers,
        &mut out,
    );
    Called {
        status: ended.status,
        hosts: ended.hosts,
        out,
    }
}

/// Whether a `run` over these files ends with this status and writes this text, where these calls fail.
fn ends_with<W: Threads + Wait + Sync + Clock + AllocGlobal>(
    rt: &W,
    files: [&str; 3],
    fails: [u64; 4],
    status: u8,
    text: &str,
) -> Result<bool, AllocError> {
    let streams = open_streams(rt.alloc(), files, fails)?;
    let hosts = echoing_hosts(rt.alloc())?;
    let called = call(rt, words(rt.alloc(), "run", "demo")?, streams, hosts);
    Ok(called.status == status && called.out.bytes() == text.as_bytes())
}

const NONE: [u64; 4] = [0, 0, 0, 0];

/// A script, answer lines, the status and the log behind its first line.
const BUILDS: [(&str, &str, u8, &str); 9] = [
    (
        "echo 'hi'",
        "",
        0,
        "[Pipeline] echo\nhi\n[Pipeline] End of Pipeline\nFinished: SUCCESS\n",
    ),
    ("", "", 0, "[Pipeline] End of Pipeline\nFinished: SUCCESS\n"),
    (
        "x = 1 % 0",
        "",
        1,
        "[Pipeline] End of Pipeline\njava.lang.ArithmeticException: / by zero\nFinished: FAILURE\n",
    ),
    (
        "unstable 'u'",
        "",
        10,
        "[Pipeline] unstable\nWARNING: u\n[Pipeline] End of Pipeline\nFinished: UNSTABLE\n",
    ),
    (
        "catchError(buildResult: 'NOT_BUILT') { error 'boom' }",
        "",
        11,
        "[Pipeline] catchError\n[Pipeline] {\n[Pipeline] error\n[Pipeline] }\nERROR: boom\n[Pipeline] // catchError\n[Pipeline] End of Pipeline\nFinished: NOT_BUILT\n",
    ),
    (
        "parallel a: { error 'x' }, b: { echo 'y' }",
        "",
        1,
        "[Pipeline] parallel\n[Pipeline] { (Branch: a)\n[Pipeline] { (Branch: b)\n[Pipeline] error\n[Pipeline] }\nFailed in branch a\n[Pipeline] echo\ny\n[Pipeline] }\n[Pipeline] // parallel\n[Pipeline] End of Pipeline\nERROR: x\nFinished: FAILURE\n",
    ),
    (
        "input 'go?'\ninput 'more?'",
        "proceed 1 by ann\nproceed 1 by ann\nabort 2 by bob",
        12,
        "[Pipeline] input\ngo?\nProceed or Abort\nApproved by ann\n[Pipeline] input\nmore?\nProceed or Abort\n[Pipeline] End of Pipeline\nRejected by bob\nFinished: ABORTED\n",
    ),
    (
        "input 'go?'",
        "proceed 2 by ann\n",
        3,
        "[Pipeline] input\ngo?\nProceed or Abort\n",
    ),
    (
        "node { sh 'x' }",
        "",
        0,
        "[Pipeline] node\nRunning on m in /w/workspace/demo\n[Pipeline] {\n[Pipeline] sh\nout 2\n[Pipeline] }\n[Pipeline] // node\n[Pipeline] End of Pipeline\nFinished: SUCCESS\n",
    ),
];

/// A script and an agents file, the status and what is said of the first fault.
const FAULTS: [(&str, &str, u8, &str); 5] = [
    ("echo 'a", AGENTS, 4, "Jenkinsfile:1:6: unended text\n"),
    (
        "if (x y) { }",
        AGENTS,
        4,
        "Jenkinsfile:1:7: unexpected token\n",
    ),
    (
        "def x = 1\ndef x = 2",
        AGENTS,
        4,
        "Jenkinsfile:2:5: name already declared\n",
    ),
    (
        "echo 'hi'",
        "{\"job\":\"demo\"}",
        13,
        "agents.json: agents: missing\n",
    ),
    (
        "echo 'a",
        "{\"job\":\"demo\"}",
        13,
        "agents.json: agents: missing\n",
    ),
];

const READ_FAILED: &str = "controller: read failed\n";

const HI: &str =
    "[Pipeline] Start of Pipeline\n[Pipeline] echo\nhi\n[Pipeline] End of Pipeline\nFinished: SUCCESS\n";

/// A script, which calls fail, the status and what is written.
const FAILURES: [(&str, [u64; 4], u8, &str); 6] = [
    ("echo 'hi'", [1, 0, 0, 0], 6, READ_FAILED),
    ("echo 'hi'", [0, 1, 0, 0], 6, READ_FAILED),
    ("input 'go?'", [0, 0, 1, 0], 6, READ_FAILED),
    ("echo 'hi'", [0, 0, 1, 0], 0, HI),
    ("echo 'hi'", [0, 0, 0, 1], 7, ""),
    ("if (x) {", [0, 0, 0, 1], 4, ""),
];

#[test]
fn builds_end_with_their_log_and_status(rt: HostRuntime) -> Result<(), Fail> {
    for (script, answers, status, lines) in BUILDS {
        let log = format!(in rt.alloc(); "[Pipeline] Start of Pipeline\n{lines}")?;
        let files = [script, AGENTS, answers];
        assert!(rt;
            ends_with(&rt, files, NONE, status, log.as_str())?,
            "{script}"
        );
    }
    Ok(())
}

#[test]
fn files_with_a_fault_are_refused(rt: HostRuntime) -> Result<(), Fail> {
    for (script, agents, status, line) in FAULTS {
        let files = [script, agents, ""];
        assert!(rt; ends_with(&rt, files, NONE, status, line)?, "{script}");
    }
    Ok(())
}

#[test]
fn failing_reads_give_6_and_a_failing_write_gives_7(rt: HostRuntime) -> Result<(), Fail> {
    for (script, fails, status, text) in FAILURES {
        let files = [script, AGENTS, ""];
        assert!(rt; ends_with(&rt, files, fails, status, text)?, "{script}");
    }
    Ok(())
}

/// A number of stages, and the lines of their build.
const GENERATED: [(&str, &str); 3] = [
    (
        "1",
        "stages 1\nnodes 13\ntasks 1\nrecords 4\nlog 319\nresult SUCCESS\n",
    ),
    (
        "3",
        "stages 3\nnodes 33\ntasks 3\nrecords 10\nlog 755\nresult SUCCESS\n",
    ),
    (
        "2000",
        "stages 2000\nnodes 20003\ntasks 2000\nrecords 6001\nlog 461285\nresult SUCCESS\n",
    ),
];

#[test]
fn generated_builds_tell_their_numbers(rt: HostRuntime) -> Result<(), Fail> {
    for (stages, lines) in GENERATED {
        let alloc = rt.alloc();
        let mut out = MemorySink::new(alloc, Vec::new(alloc));
        let status = call_in_memory(&rt, words(alloc, "gen", stages)?, &mut out);
        assert_eq!(rt; status, 0);
        assert_eq!(rt; out.bytes(), lines.as_bytes());
    }
    Ok(())
}
