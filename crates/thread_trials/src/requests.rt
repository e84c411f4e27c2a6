//! Answers of `build_requests` to events, and what they change, on small lists.

use build_requests::{
    answer_first, answer_running, hold_executor, input_of, keep_output, kept_len, open_tasks,
    waiting_inputs,
};
use model_run::{
    Event, Executor, Executors, Held, HeldExecutors, OpenRequest, OpenRequests, Request, Site,
    Stream, Taken,
};
use model_text::{Bytes, Pairs, Text, Texts};
use std::alloc::{AllocError, Global};
use std::test::Fail;

/// Agent `m` with executors 0 and 1, and agent `n` with executor 2.
fn site(alloc: Global) -> Result<Site, AllocError> {
    let mut executors = Executors::new(alloc);
    for (number, agent) in [(0, "m"), (1, "m"), (2, "n")] {
        executors.push(Executor {
            number,
            agent: Text::from_str(alloc, agent)?,
            root: Text::from_str(alloc, "/w")?,
            labels: Texts::new(alloc),
            slot: 0,
        })?;
    }
    Ok(Site {
        job: Text::from_str(alloc, "demo")?,
        looks: 1,
        executors,
    })
}

fn task(alloc: Global) -> Result<Request, AllocError> {
    Ok(Request::Task {
        executor: 0,
        workspace: Text::from_str(alloc, "/w")?,
        folder: Text::from_str(alloc, "/w")?,
        env: Pairs::new(alloc),
        script: Text::from_str(alloc, "x")?,
        status: false,
        keep_out: true,
        taken: 1,
        out: Bytes::new(alloc),
    })
}

/// A `node` step for agent `n`, a task and an input, with numbers 1, 2 and 3.
fn requests(alloc: Global) -> Result<OpenRequests, AllocError> {
    let label = Some(Text::from_str(alloc, "n")?);
    let id = Text::from_str(alloc, "go")?;
    let mut requests = OpenRequests::new(alloc);
    requests.push(OpenRequest {
        number: 1,
        thread: 0,
        request: Request::Node { label },
    })?;
    requests.push(OpenRequest {
        number: 2,
        thread: 4,
        request: task(alloc)?,
    })?;
    requests.push(OpenRequest {
        number: 3,
        thread: 5,
        request: Request::Input { id },
    })?;
    Ok(requests)
}

fn output(alloc: Global, stream: Stream, from: u64) -> Event {
    Event::Output {
        task: 2,
        stream,
        from,
        bytes: Bytes::new(alloc),
    }
}

fn exited(task: u32) -> Event {
    Event::Exited { task, code: 0 }
}

fn granted(executor: u32) -> Event {
    Event::Granted {
        request: 1,
        executor,
    }
}

#[test]
fn an_event_names_what_is_open_and_goes_on_where_its_stream_was_left(
    rt: HostRuntime,
) -> Result<(), Fail> {
    let alloc = rt.alloc();
    let site = site(alloc)?;
    let requests = requests(alloc)?;
    let rows = [
        (granted(2), Taken::Accepted),
        (granted(0), Taken::NotOpen),
        (granted(9), Taken::NotOpen),
        (exited(2), Taken::Accepted),
        (exited(3), Taken::NotOpen),
        (output(alloc, Stream::Log, 1), Taken::Accepted),
        (output(alloc, Stream::Log, 0), Taken::WrongPlace { kept: 1 }),
        (output(alloc, Stream::Out, 1), Taken::WrongPlace { kept: 0 }),
    ];
    for (event, answer) in rows {
        let said = answer_running(alloc, &site, requests.as_slice(), &[], &event)?;
        assert_eq!(rt; said, answer);
        assert_eq!(rt; answer_first(&event), Taken::NotOpen);
    }
    Ok(())
}

#[test]
fn output_is_kept_behind_what_was_kept(rt: HostRuntime) -> Result<(), Fail> {
    let alloc = rt.alloc();
    let mut requests = requests(alloc)?;
    keep_output(alloc, &mut requests, 2, b"ab")?;
    keep_output(alloc, &mut requests, 2, b"c")?;
    assert_eq!(rt; kept_len(&requests, 2), 3);
    assert_eq!(rt; kept_len(&requests, 3), 0);
    Ok(())
}

#[test]
fn a_workspace_has_the_lowest_number_that_its_agent_does_not_use(
    rt: HostRuntime,
) -> Result<(), Fail> {
    let alloc = rt.alloc();
    let mut held = HeldExecutors::new(alloc);
    held.push(holds(1, 4, 1))?;
    hold_executor(alloc, &site(alloc)?, &mut held, 5, 0)?;
    assert!(rt; held.as_slice() == [holds(0, 5, 2), holds(1, 4, 1)].as_slice());
    Ok(())
}

/// An executor that is held by a request in the workspace of a number.
fn holds(executor: u32, request: u32, workspace: u32) -> Held {
    Held {
        executor,
        request,
        workspace,
    }
}

#[test]
fn what_waits_is_counted_and_an_input_is_found_by_its_id(rt: HostRuntime) -> Result<(), Fail> {
    let requests = requests(rt.alloc())?;
    let open = requests.as_slice();
    assert_eq!(rt; waiting_inputs(open), 1);
    assert_eq!(rt; open_tasks(open), 1);
    assert_eq!(rt; input_of(open, b"go"), Some(3));
    assert_eq!(rt; input_of(open, b"g"), None);
    Ok(())
}
