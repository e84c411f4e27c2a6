//! The sites and the first faults that `agents_file` tells of whole files.

use agents_file::{AgentsRefusal, FILE_LIMIT, read_agents};
use model_run::{AgentsKind, Executor};
use model_text::Text;
use std::alloc::{AllocError, Global};
use std::test::Fail;

/// Whether a file has a site with this job, so many looks and so many executors.
fn is_site(alloc: Global, file: &[u8], job: &str, looks: u32, executors: usize) -> bool {
    match read_agents(alloc, file) {
        Ok(site) => site.job.as_slice() == job.as_bytes()
            && site.looks == looks
            && site.executors.len() == executors,
        Err(_) => false,
    }
}

/// Whether this is the first fault of a file.
fn is_fault(alloc: Global, file: &[u8], path: &str, kind: AgentsKind) -> bool {
    match read_agents(alloc, file) {
        Err(
            AgentsRefusal::Fault {
                path: told,
                kind: as_kind,
            },
        ) => told.as_slice() == path.as_bytes() && as_kind == kind,
        _ => false,
    }
}

fn has_labels(labels: &[Text], wanted: &[&str]) -> bool {
    for (label, wanted) in labels.iter().zip(wanted) {
        if label.as_slice() != wanted.as_bytes() {
            return false;
        }
    }
    labels.len() == wanted.len()
}

fn is_executor(
    executor: &Executor,
    number: u32,
    agent: &str,
    slot: u32,
    root: &str,
    labels: &[&str],
) -> bool {
    executor.number == number
        && executor.agent.as_slice() == agent.as_bytes()
        && executor.slot == slot
        && executor.root.as_slice() == root.as_bytes()
        && has_labels(executor.labels.as_slice(), labels)
}

const ONE_AGENT: &str = r#"{"job":"demo","agents":[{"name":"m","root":"/w","executors":1}]}"#;

const TWO_AGENTS: &str =
    r#" { "looks" : 5, "agents" : [ {"name":"a","root":"/srv/a","labels":["linux","linux"],"executors":2},
 {"executors":1,"name":"b","root":"/srv/b"} ], "job":"x.y" }
"#;

fn are_of_one_agent(executors: &[Executor]) -> bool {
    match executors {
        [only] => is_executor(only, 0, "m", 0, "/w", &[]),
        _ => false,
    }
}

fn are_of_two_agents(executors: &[Executor]) -> bool {
    match executors {
        [first, second, third] => is_executor(first, 0, "a", 0, "/srv/a", &["linux", "linux"])
            && is_executor(second, 1, "a", 1, "/srv/a", &["linux", "linux"])
            && is_executor(third, 2, "b", 0, "/srv/b", &[]),
        _ => false,
    }
}

/// A file, the job, the looks and how many executors there are.
const SITES: [(&str, &str, u32, usize); 6] = [
    (ONE_AGENT, "demo", 100000, 1),
    (TWO_AGENTS, "x.y", 5, 3),
    (r#"{"job":"demo","agents":[]}"#, "demo", 100000, 0),
    (r#"{"job":1,"job":"a","agents":[]}"#, "a", 100000, 0),
    (r#"{"j\u006fb":"a","agents":[]}"#, "a", 100000, 0),
    (
        r#"{"job":1,"j\u006fb":"\u0061","agents":[]}"#,
        "a",
        100000,
        0,
    ),
];

/// A file, and the path and the kind of its first fault.
const FAULTS: [(&str, &str, AgentsKind); 15] = [
    ("", ".", AgentsKind::NotJson),
    ("{} x", ".", AgentsKind::NotJson),
    (r#"{"job":"a",}"#, ".", AgentsKind::NotJson),
    (r#"{"job":"\ud800"}"#, ".", AgentsKind::NotJson),
    (r#"{"looks":1e999}"#, ".", AgentsKind::NotJson),
    ("[]", ".", AgentsKind::WrongType),
    (r#"{"job":"demo"}"#, "agents", AgentsKind::Missing),
    (
        r#"{"agents":1,"looks":0,"x":1}"#,
        "job",
        AgentsKind::Missing,
    ),
    (r#"{"job":"a b","looks":0}"#, "job", AgentsKind::WrongValue),
    (r#"{"job":"a","looks":5.0}"#, "looks", AgentsKind::WrongType),
    (r#"{"job":"a","looks":-1}"#, "looks", AgentsKind::WrongValue),
    (
        r#"{"job":"a","looks":1000001,"agents":[]}"#,
        "looks",
        AgentsKind::WrongValue,
    ),
    (
        r#"{"job":"a","looks":null,"agents":[]}"#,
        "looks",
        AgentsKind::WrongType,
    ),
    (
        r#"{"job":"a","agents":{},"x":1}"#,
        "agents",
        AgentsKind::WrongType,
    ),
    (
        r#"{"x":1,"job":"a","a.b":2,"agents":[{"name":"m","root":"/w","executors":1,"A":1}]}"#,
        "a.b",
        AgentsKind::UnknownKey,
    ),
];

/// The same, where the first fault is of an agent, or of all together.
const AGENT_FAULTS: [(&str, &str, AgentsKind); 16] = [
    (
        r#"{"job":"a","agents":[7]}"#,
        "agents[0]",
        AgentsKind::WrongType,
    ),
    (
        r#"{"job":"a","agents":[{"x":1}]}"#,
        "agents[0].name",
        AgentsKind::Missing,
    ),
    (
        r#"{"job":"a","agents":[{"name":"","root":1}]}"#,
        "agents[0].name",
        AgentsKind::WrongValue,
    ),
    (
        r#"{"job":"a","agents":[{"name":"m","root":"/w/"}]}"#,
        "agents[0].root",
        AgentsKind::WrongValue,
    ),
    (
        r#"{"job":"a","agents":[{"name":"m","root":"/w\u0085"}]}"#,
        "agents[0].root",
        AgentsKind::WrongValue,
    ),
    (
        r#"{"job":"a","agents":[{"name":"m","root":"/w","labels":{}}]}"#,
        "agents[0].labels",
        AgentsKind::WrongType,
    ),
    (
        r#"{"job":"a","agents":[{"name":"m","root":"/w","labels":["x","y z"]}]}"#,
        "agents[0].labels[1]",
        AgentsKind::WrongValue,
    ),
    (
        r#"{"job":"a","agents":[{"name":"m","root":"/w","labels":["x",7]}]}"#,
        "agents[0].labels[1]",
        AgentsKind::WrongType,
    ),
    (
        r#"{"job":"a","agents":[{"name":"m","root":"/w"}]}"#,
        "agents[0].executors",
        AgentsKind::Missing,
    ),
    (
        r#"{"job":"a","agents":[{"name":"m","root":"/w","executors":0}]}"#,
        "agents[0].executors",
        AgentsKind::WrongValue,
    ),
    (
        r#"{"job":"a","agents":[{"name":"m","root":"/w","executors":65}]}"#,
        "agents[0].executors",
        AgentsKind::WrongValue,
    ),
    (
        r#"{"job":"a","agents":[{"name":"m","root":"/w","executors":1.5}]}"#,
        "agents[0].executors",
        AgentsKind::WrongType,
    ),
    (
        r#"{"job":"a","agents":[{"name":"m","root":"/w","executors":1,"b":1,"a":1}]}"#,
        "agents[0].a",
        AgentsKind::UnknownKey,
    ),
    (
        r#"{"job":"a","agents":[{"name":"m","root":"/w","executors":1,"b":1},{"name":"m","root":"w","executors":1}]}"#,
        "agents[1].root",
        AgentsKind::WrongValue,
    ),
    (
        r#"{"job":"a","agents":[{"name":"m","root":"/w","executors":64},{"name":"m","root":"/w","executors":1}]}"#,
        "agents[1].name",
        AgentsKind::DuplicateName,
    ),
    (
        r#"{"job":"a","agents":[{"name":"m","root":"/w","executors":64},{"name":"n","root":"/w","executors":1}]}"#,
        "agents",
        AgentsKind::TooManyExecutors,
    ),
];

#[test]
fn sites_of_files(rt: HostRuntime) -> Result<(), Fail> {
    for (file, job, looks, executors) in SITES {
        assert!(rt;
            is_site(rt.alloc(), file.as_bytes(), job, looks, executors),
            "{file}"
        );
    }
    let site = read_agents(rt.alloc(), ONE_AGENT.as_bytes())?;
    assert!(rt; are_of_one_agent(site.executors.as_slice()));
    let site = read_agents(rt.alloc(), TWO_AGENTS.as_bytes())?;
    assert!(rt; are_of_two_agents(site.executors.as_slice()));
    Ok(())
}

#[test]
fn first_faults_of_files(rt: HostRuntime) -> Result<(), Fail> {
    for (file, path, kind) in FAULTS {
        assert!(rt; is_fault(rt.alloc(), file.as_bytes(), path, kind), "{file}");
    }
    for (file, path, kind) in AGENT_FAULTS {
        assert!(rt; is_fault(rt.alloc(), file.as_bytes(), path, kind), "{file}");
    }
    assert!(rt; is_fault(rt.alloc(), b"\"\xff\"", ".", AgentsKind::NotJson));
    Ok(())
}

/// So many copies of a byte, a text, and so many copies of another byte.
fn between(
    alloc: Global,
    before: (u8, usize),
    text: &[u8],
    behind: (u8, usize),
) -> Result<Vec<u8>, AllocError> {
    let mut file = Vec::from_elem(alloc, before.0, before.1)?;
    file.extend_from_slice(text)?;
    for _ in 0..behind.1 {
        file.push(behind.0)?;
    }
    Ok(file)
}

#[test]
fn a_file_that_nests_too_deep_is_no_json(rt: HostRuntime) -> Result<(), Fail> {
    for (depth, kind) in [(127, AgentsKind::WrongType), (128, AgentsKind::NotJson)] {
        let file = between(rt.alloc(), (b'[', depth), b"", (b']', depth))?;
        assert!(rt; is_fault(rt.alloc(), file.as_slice(), ".", kind), "{depth}");
    }
    Ok(())
}

#[test]
fn a_file_may_have_65536_bytes(rt: HostRuntime) -> Result<(), Fail> {
    let text = br#"{"job":"a","agents":[]}"#;
    let blanks = FILE_LIMIT - text.len();
    let file = between(rt.alloc(), (b' ', blanks), text, (b' ', 0))?;
    assert!(rt; is_site(rt.alloc(), file.as_slice(), "a", 100000, 0));
    let file = between(rt.alloc(), (b' ', blanks), text, (b' ', 1))?;
    assert!(rt; is_fault(rt.alloc(), file.as_slice(), ".", AgentsKind::TooLong));
    let file = between(rt.alloc(), (b'x', FILE_LIMIT), b"x", (b' ', 0))?;
    assert!(rt; is_fault(rt.alloc(), file.as_slice(), ".", AgentsKind::TooLong));
    Ok(())
}
