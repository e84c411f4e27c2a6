//! What a thread and its build hold behind the words of `cps_frames`.

use build_log::Log;
use cell_heap::Heap;
use cps_code::number;
use cps_frames::{
    Halt, Move, Shared, ThreadState, call, end_block, end_body, note_atom, note_block, note_body,
    note_branch, say, tick, turn, turn_of, value_of, wait_for,
};
use flow_graph::Graph;
use model_run::{
    Asked, BuildResult, Callee, Context, Ending, Entry, Frame, FrameKind, HeldExecutors,
    OpenRequests, Request, Site,
};
use model_syntax::Tree;
use model_text::{Ids, Pairs, Sequence, Text, Texts};
use model_values::{Env, LimitKind, Value, Values};
use sqlite_items::Items;
use std::alloc::{AllocError, Global};
use std::test::Fail;

/// A build of an empty script that has just begun.
fn begun(alloc: Global) -> Result<Shared, AllocError> {
    let tree = Tree {
        tops: Items::new(alloc),
    };
    Ok(Shared {
        code: number(alloc, tree)?,
        site: Site {
            job: Text::new(alloc),
            looks: 5,
            executors: Sequence::new(alloc),
        },
        heap: Heap::new(alloc),
        binding: Vec::new(alloc),
        graph: Graph::start(alloc)?,
        log: Log::new(alloc),
        result: BuildResult::Success,
        requests: OpenRequests::new(alloc),
        held: HeldExecutors::new(alloc),
        next_request: 1,
        count: 0,
    })
}

/// Its main thread.
fn main_thread(alloc: Global) -> ThreadState {
    ThreadState {
        number: 0,
        parent: None,
        head: 2,
        context: Context {
            held: Ids::new(alloc),
            folders: Texts::new(alloc),
            env: Pairs::new(alloc),
        },
        calls: 0,
        stack: Vec::new(alloc),
    }
}

/// `echo 'hi'`, and a stage without statements.
fn run_steps(thread: &mut ThreadState, shared: &mut Shared) -> Result<(), Halt> {
    note_atom(thread, shared, b"echo")?;
    say(shared, b"hi")?;
    note_block(thread, shared, b"stage")?;
    note_body(thread, shared, b"Build")?;
    end_body(thread, shared, 5)?;
    end_block(thread, shared, b"stage", 4)
}

/// The thread's last node, how many nodes there are, and the length of the log.
fn counts_behind_steps(alloc: Global) -> Result<(u32, usize, usize), Halt> {
    let mut shared = begun(alloc)?;
    let mut thread = main_thread(alloc);
    run_steps(&mut thread, &mut shared)?;
    Ok((
        thread.head,
        shared.graph.nodes().len(),
        shared.log.bytes().len(),
    ))
}

/// The first nodes of two branches, and the last node of the thread that makes them.
fn nodes_of_branches(alloc: Global) -> Result<(u32, u32, u32), Halt> {
    let mut shared = begun(alloc)?;
    let thread = main_thread(alloc);
    let first = note_branch(&thread, &mut shared, b"a")?;
    let second = note_branch(&thread, &mut shared, b"b")?;
    Ok((first, second, thread.head))
}

/// How many nodes were evaluated behind one more, where so many were before.
fn count_after(alloc: Global, count: u32) -> Result<u32, Halt> {
    let mut shared = begun(alloc)?;
    shared.count = count;
    tick(&mut shared)?;
    Ok(shared.count)
}

/// The second turn of the loop at node 7.
fn second_turn(alloc: Global) -> Result<Move, Halt> {
    let mut shared = begun(alloc)?;
    turn(&mut shared, 7, 1, Values::new(alloc), Env::new(alloc))
}

/// A call of the closure at node 3.
fn called(alloc: Global) -> Result<Move, Halt> {
    let mut shared = begun(alloc)?;
    let callee = Callee {
        node: 3,
        env: Env::new(alloc),
    };
    call(&mut shared, callee, Values::new(alloc))
}

/// `input` waits: its move, the number of the next request, and how many frames and open requests there are.
fn input_waits(alloc: Global) -> Result<(Move, u32, usize, usize), Halt> {
    let mut shared = begun(alloc)?;
    shared.next_request = 1;
    let mut thread = main_thread(alloc);
    let frame = Frame {
        kind: FrameKind::InputWait,
        node: 0,
        left: 0,
        env: Env::new(alloc),
        values: Values::new(alloc),
    };
    let request = Request::Input {
        id: Text::new(alloc),
    };
    let asks = wait_for(&mut thread, &mut shared, frame, request)?;
    Ok((
        asks,
        shared.next_request,
        thread.stack.len(),
        shared.requests.len(),
    ))
}

#[test]
fn a_step_has_its_nodes_and_lines_behind_the_last_ones(rt: HostRuntime) -> Result<(), Fail> {
    assert!(rt; matches!(counts_behind_steps(rt.alloc()), Ok((7, 6, 90))));
    Ok(())
}

#[test]
fn the_node_of_a_branch_is_not_the_last_of_its_parent(rt: HostRuntime) -> Result<(), Fail> {
    assert!(rt; matches!(nodes_of_branches(rt.alloc()), Ok((3, 4, 2))));
    Ok(())
}

#[test]
fn the_node_after_the_last_of_a_million_meets_the_limit(rt: HostRuntime) -> Result<(), Fail> {
    assert!(rt; matches!(count_after(rt.alloc(), 999999), Ok(1000000)));
    assert!(rt;
        matches!(
            count_after(rt.alloc(), 1000000),
            Err(Halt::Limit(LimitKind::NodesEvaluated))
        )
    );
    Ok(())
}

#[test]
fn a_turn_and_a_call_enter_their_nodes(rt: HostRuntime) -> Result<(), Fail> {
    assert!(rt;
        matches!(
            second_turn(rt.alloc()),
            Ok(Move::Enter(Entry::Turn(1, _), 7, _))
        )
    );
    assert!(rt; matches!(called(rt.alloc()), Ok(Move::Enter(Entry::Body(_), 3, _))));
    Ok(())
}

#[test]
fn a_wait_is_for_its_request_inside_its_frame(rt: HostRuntime) -> Result<(), Fail> {
    assert!(rt;
        matches!(
            input_waits(rt.alloc()),
            Ok((Move::Asks(Asked::ForRequest(1)), 2, 1, 1))
        )
    );
    Ok(())
}

#[test]
fn break_ends_a_loop_with_null_and_passes_no_value_on(rt: HostRuntime) -> Result<(), Fail> {
    assert!(rt; matches!(turn_of(Ending::Broke), Err(Ending::Normal(Value::Null))));
    assert!(rt; matches!(value_of(Ending::Broke), Err(Ending::Broke)));
    Ok(())
}
