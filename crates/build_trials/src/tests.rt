use crate::trial::EmptyScript;
use build_core::{Build, Phase};
use cps_code::{Code, number};
use model_run::{BuildResult, Event, Executors, Site, Taken};
use model_syntax::Tree;
use model_text::{Bytes, Text};
use script_thread::ScriptThread;
use sqlite_items::Items;
use std::alloc::{AllocError, Global};
use std::test::Fail;

/// The empty script.
fn code(alloc: Global) -> Result<Code, AllocError> {
    let tree = Tree {
        tops: Items::new(alloc),
    };
    number(alloc, tree)
}

fn site(alloc: Global) -> Result<Site, AllocError> {
    Ok(Site {
        job: Text::from_str(alloc, "demo")?,
        looks: 1,
        executors: Executors::new(alloc),
    })
}

/// A build of the empty script that has taken no event.
///
/// The functions that handle builds are generic, so that their proof knows nothing of the thread.
fn unbegun<R: ScriptThread + Drop>(alloc: Global) -> Result<Build<R>, AllocError> {
    Build::new(alloc, code(alloc)?, site(alloc)?)
}

fn start(alloc: Global) -> Event {
    Event::Start {
        script: Bytes::new(alloc),
        agents: Bytes::new(alloc),
    }
}

fn exited() -> Event {
    Event::Exited { task: 1, code: 0 }
}

const LOG: &str = "[Pipeline] Start of Pipeline\n[Pipeline] End of Pipeline\nFinished: SUCCESS\n";

/// What a build says to an event before it begins, to its beginning, and to an event behind its end.
fn answers<R: ScriptThread + Drop>(alloc: Global) -> Result<[Taken; 3], AllocError> {
    let mut build: Build<R> = unbegun(alloc)?;
    let before = build.take(&exited())?;
    let begun = build.take(&start(alloc))?;
    let behind = build.take(&start(alloc))?;
    Ok([before, begun, behind])
}

/// What a build shows: how far it has come, its result, and how many nodes, requests and held executors it has.
#[derive(Clone, Copy, Debug, PartialEq, Eq)]
struct Shown {
    phase: Phase,
    result: BuildResult,
    counts: [usize; 3],
}

fn counts<R: ScriptThread + Drop>(build: &Build<R>) -> [usize; 3] {
    [
        build.nodes().len(),
        build.requests().len(),
        build.held().len(),
    ]
}

fn show<R: ScriptThread + Drop>(build: &Build<R>) -> Shown {
    Shown {
        phase: build.phase(),
        result: build.result(),
        counts: counts(build),
    }
}

/// What a build shows before it begins, and the grant that is due and the input of an id then.
fn shown_before<R: ScriptThread + Drop>(
    alloc: Global,
) -> Result<(Shown, Option<(u32, u32)>, Option<u32>), AllocError> {
    let build: Build<R> = unbegun(alloc)?;
    let due = build.next_grant()?;
    Ok((show(&build), due, build.input_of(b"1")))
}

/// What a build shows behind its end and a mark, its log and the text of its graph.
fn shown_behind<R: ScriptThread + Drop>(
    alloc: Global,
) -> Result<(Shown, Bytes, Bytes), AllocError> {
    let mut build: Build<R> = unbegun(alloc)?;
    build.take(&start(alloc))?;
    build.mark();
    let log = Bytes::from_slice(alloc, build.log())?;
    let graph = build.graph_text()?;
    Ok((show(&build), log, graph))
}

#[test]
fn a_build_begins_ends_and_takes_nothing_more(rt: HostRuntime) -> Result<(), Fail> {
    let wanted = [Taken::NotOpen, Taken::Accepted, Taken::Finished];
    assert!(rt; answers::<EmptyScript>(rt.alloc())? == wanted);
    Ok(())
}

#[test]
fn a_build_ends_with_its_log_its_graph_and_its_result(rt: HostRuntime) -> Result<(), Fail> {
    let wanted = Shown {
        phase: Phase::Ended,
        result: BuildResult::Success,
        counts: [2, 0, 0],
    };
    let (shown, log, graph) = shown_behind::<EmptyScript>(rt.alloc())?;
    assert!(rt; shown == wanted);
    assert!(rt; log.as_slice() == LOG.as_bytes());
    assert!(rt; graph.as_slice() == b"2 start\n3 end <- 2\n".as_slice());
    Ok(())
}

#[test]
fn before_it_begins_nothing_waits_and_no_grant_is_due(rt: HostRuntime) -> Result<(), Fail> {
    let wanted = Shown {
        phase: Phase::Unbegun,
        result: BuildResult::Success,
        counts: [0; 3],
    };
    let (shown, due, input) = shown_before::<EmptyScript>(rt.alloc())?;
    assert!(rt; shown == wanted);
    assert!(rt; due.is_none() && input.is_none());
    Ok(())
}
