//! A host in memory: its happy paths, its failing calls, and the list of its calls.

use std::alloc::{AllocError, Global};
use std::test::Fail;
use task_host::{
    Bytes, Call, Failed, Host, Look, Made, MemoryHost, Numbers, Order, Pairs, Started, Stream,
    TaskOutcome, TaskOutcomes,
};

fn order(alloc: Global, task: u32) -> Result<Order, AllocError> {
    Ok(Order {
        task,
        executor: 0,
        workspace: Bytes::from_slice(alloc, b"/w/workspace/demo")?,
        folder: Bytes::from_slice(alloc, b"/w/workspace/demo")?,
        env: Pairs::new(alloc),
        script: Bytes::from_slice(alloc, b"make")?,
        keep_out: false,
        kept_log: 0,
        kept_out: 0,
    })
}

// A host with this outcome of task 2, on which these calls fail.
fn host(
    alloc: Global,
    fail_at: &[u64],
    log: &[u8],
    running: u32,
    code: i32,
) -> Result<MemoryHost, AllocError> {
    let outcome = TaskOutcome {
        task: 2,
        log: Bytes::from_slice(alloc, log)?,
        out: Bytes::from_slice(alloc, b"1.4\n")?,
        running,
        code,
    };
    Ok(MemoryHost::new(
        alloc,
        Numbers::from_slice(alloc, fail_at)?,
        TaskOutcomes::from_vec(vec![in alloc; outcome]?),
    ))
}

#[test]
fn a_task_runs_twice_and_exits_with_3(rt: HostRuntime) -> Result<(), Fail> {
    let mut host = host(rt.alloc(), &[], b"+ exit 3\n", 2, 3)?;
    let order = order(rt.alloc(), 2)?;
    assert_eq!(rt; host.look(&order), Look::Absent);
    assert_eq!(rt; host.make_dir(&order), Made::Made);
    assert_eq!(rt; host.make_dir(&order), Made::Exists);
    assert_eq!(rt; host.look(&order), Look::NotStarted);
    assert_eq!(rt; host.start(&order), Started::Started);
    for answer in [
        Look::Running,
        Look::Running,
        Look::Exited(3),
        Look::Exited(3),
    ] {
        assert_eq!(rt; host.look(&order), answer);
    }
    assert_eq!(rt; host.launches(), [2].as_slice());
    assert_eq!(rt; host.remove(&order), Ok(()));
    assert_eq!(rt; host.look(&order), Look::Absent);
    assert_eq!(rt; host.dirs().len(), 0);
    Ok(())
}

#[test]
fn output_comes_in_pieces_of_the_buffer(rt: HostRuntime) -> Result<(), Fail> {
    let log = vec![in rt.alloc(); b'x'; 300_000]?;
    let mut host = host(rt.alloc(), &[], &log, 0, 0)?;
    let order = order(rt.alloc(), 2)?;
    let mut buf = vec![in rt.alloc(); 0u8; 65_536]?;
    assert_eq!(rt; host.make_dir(&order), Made::Made);
    assert_eq!(rt; host.read(&order, Stream::Log, 0, &mut buf), Ok(0));
    assert_eq!(rt; host.start(&order), Started::Started);
    for (from, count) in [
        (0, 65_536),
        (65_536, 65_536),
        (131_072, 65_536),
        (196_608, 65_536),
        (262_144, 37_856),
        (300_000, 0),
        (u64::MAX, 0),
    ] {
        assert_eq!(rt; host.read(&order, Stream::Log, from, &mut buf), Ok(count));
    }
    let mut small = *b"abcd";
    assert_eq!(rt; host.read(&order, Stream::Out, 1, &mut small), Ok(3));
    assert_eq!(rt; small, *b".4\nd", "the rest of the buffer stays");
    Ok(())
}

#[test]
fn each_call_fails_in_its_turn(rt: HostRuntime) -> Result<(), Fail> {
    for at in 1..6u64 {
        let mut host = host(rt.alloc(), &[at], b"out", 0, 0)?;
        let order = order(rt.alloc(), 2)?;
        let mut buf = [0u8; 8];
        assert_eq!(rt; host.make_dir(&order) == Made::Failed, at == 1);
        assert_eq!(rt; host.start(&order) == Started::Failed, at <= 2);
        assert_eq!(rt; host.look(&order) == Look::Failed, at == 3);
        assert_eq!(rt;
            host.read(&order, Stream::Log, 0, &mut buf) == Err(Failed),
            at == 4
        );
        assert_eq!(rt; host.remove(&order) == Err(Failed), at == 5);
        assert_eq!(rt; host.launches().is_empty(), at <= 2);
    }
    Ok(())
}

#[test]
fn an_echoing_host_writes_the_number(rt: HostRuntime) -> Result<(), Fail> {
    let mut host = MemoryHost::echoing(rt.alloc());
    let order = order(rt.alloc(), 268_435_458)?;
    let mut buf = [0u8; 16];
    assert_eq!(rt; host.make_dir(&order), Made::Made);
    assert_eq!(rt; host.start(&order), Started::Started);
    assert_eq!(rt; host.look(&order), Look::Exited(0));
    assert_eq!(rt; host.read(&order, Stream::Log, 0, &mut buf), Ok(14));
    assert_eq!(rt; &buf[..14], b"out 268435458\n".as_slice());
    assert_eq!(rt; host.read(&order, Stream::Out, 0, &mut buf), Ok(0));
    Ok(())
}

#[test]
fn the_next_life_finds_folders_and_launches(rt: HostRuntime) -> Result<(), Fail> {
    let none = TaskOutcomes::new(rt.alloc());
    let mut first = MemoryHost::new(rt.alloc(), Numbers::new(rt.alloc()), none);
    let order = order(rt.alloc(), 2)?;
    assert_eq!(rt; first.make_dir(&order), Made::Made);
    assert_eq!(rt; first.start(&order), Started::Started);
    let mut next = handed_on(first);
    assert_eq!(rt; next.make_dir(&order), Made::Exists);
    for _ in 0..5 {
        assert_eq!(rt; next.look(&order), Look::Running, "no outcome");
    }
    assert_eq!(rt; next.launches(), [2].as_slice());
    Ok(())
}

// A host can go to another thread.
fn handed_on<H: Host + Send>(host: H) -> H {
    host
}

#[test]
fn the_list_has_each_call_with_its_answer(rt: HostRuntime) -> Result<(), Fail> {
    let mut host = host(rt.alloc(), &[2], b"out", 0, 7)?;
    let order = order(rt.alloc(), 2)?;
    let mut buf = [0u8; 2];
    let _ = host.make_dir(&order);
    let _ = host.start(&order);
    let _ = host.start(&order);
    host.pause();
    let _ = host.look(&order);
    let _ = host.read(&order, Stream::Log, 1, &mut buf);
    let _ = host.remove(&order);
    let calls = host.calls().ok_or("the calls")?;
    assert_eq!(rt; calls.len(), 7);
    for (at, call) in calls.iter().enumerate() {
        assert_eq!(rt; is_on_task_2(call), at != 3);
    }
    assert!(rt; are_answered(calls));
    assert!(rt; is_read_of_ut(&calls[5]));
    Ok(())
}

// The seven calls, each with its answer.
fn are_answered(calls: &[Call]) -> bool {
    matches!(
        calls,
        [
            Call::MakeDir {
                answer: Made::Made,
                ..
            },
            Call::Start {
                answer: Started::Failed,
                ..
            },
            Call::Start {
                answer: Started::Started,
                ..
            },
            Call::Pause,
            Call::Look {
                answer: Look::Exited(7),
                ..
            },
            Call::Read { .. },
            Call::Remove { answer: Ok(()), .. },
        ]
    )
}

fn is_on_task_2(call: &Call) -> bool {
    match call {
        Call::MakeDir { order, .. }
        | Call::Start { order, .. }
        | Call::Look { order, .. }
        | Call::Read { order, .. }
        | Call::Remove { order, .. } => order.task == 2
            && order.script.as_slice() == b"make".as_slice(),
        Call::Pause => false,
    }
}

fn is_read_of_ut(call: &Call) -> bool {
    match call {
        Call::Read {
            stream: Stream::Log,
            from: 1,
            room: 2,
            answer: Some(bytes),
            ..
        } => bytes.as_slice() == b"ut".as_slice(),
        _ => false,
    }
}
