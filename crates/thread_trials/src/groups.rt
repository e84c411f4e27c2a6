//! Groups of `green_threads`: in which order threads go on, and with which answers.

ghost use Rattle.std.specs.Prelude.{◌≡◌, ◌+◌, ◌≤◌, IfOk, false};
ghost use Rattle.green_threads.specs.Grouping.{Grouped};
ghost use Rattle.thread_trials.specs.declared.scripted.Scripted.{Scripted};

use crate::scripted::{Scripted, Shared};
use green_threads::{Group, Seated, Settled, SpawnRefusal};
use model_run::{Answer, Join, JoinEnd, Joins, Outcome, Wait};
use model_text::{Bytes, Text};
use model_values::{LimitKind, Value};
use std::alloc::Global;
use std::test::Fail;

/// A group with what its threads share. What each call asks for and gives is that the group may settle.
#[derive(Drop)]
struct Trial {
    group: Group<Scripted>,
    shared: Shared,
}

/// A thread that is no branch.
fn script() -> Scripted
    ensures { result.is_branch ≡ false }
{
    Scripted {
        number: 0,
        parent: None,
        is_branch: false,
        head: 7,
    }
}

/// Thread 0 waits for request 1.
fn begun(alloc: Global) -> Result<Trial, Fail>
    ensures sound { IfOk result (λ trial. (Grouped (λ (t : Scripted). t.number) (λ (t : Scripted). t.parent) (λ (t : Scripted). t.is_branch) 0 trial.group.seats trial.group.next) × (trial.group.next + trial.shared.left ≤ 4294967295)) }
{
    let mut group = Group::new(alloc);
    let mut shared = Shared::new(alloc);
    match group.spawn(script()) {
        Ok(_) => {}
        Err(_) => return Err("the first thread was refused".into()),
    }
    group.settle(&mut shared)?;
    Ok(Trial { group, shared })
}

/// The trial where a thread was given an answer, and whether it waited for one.
fn answer(trial: Trial, thread: u32, answer: Answer) -> (Trial, bool)
    requires sound { (Grouped (λ (t : Scripted). t.number) (λ (t : Scripted). t.parent) (λ (t : Scripted). t.is_branch) 0 trial.group.seats trial.group.next) × (trial.group.next + trial.shared.left ≤ 4294967295) }
    ensures sound { (Grouped (λ (t : Scripted). t.number) (λ (t : Scripted). t.parent) (λ (t : Scripted). t.is_branch) 0 result.0.group.seats result.0.group.next) × (result.0.group.next + result.0.shared.left ≤ 4294967295) }
{
    let Trial { mut group, shared } = trial;
    let taken = group.answer(thread, answer).is_ok();
    (Trial { group, shared }, taken)
}

/// How the threads come to rest.
fn settle(trial: Trial) -> Result<(Trial, Settled), Fail>
    requires sound { (Grouped (λ (t : Scripted). t.number) (λ (t : Scripted). t.parent) (λ (t : Scripted). t.is_branch) 0 trial.group.seats trial.group.next) × (trial.group.next + trial.shared.left ≤ 4294967295) }
    ensures sound { IfOk result (λ settled. (Grouped (λ (t : Scripted). t.number) (λ (t : Scripted). t.parent) (λ (t : Scripted). t.is_branch) 0 settled.0.group.seats settled.0.group.next) × (settled.0.group.next + settled.0.shared.left ≤ 4294967295)) }
{
    let Trial {
        mut group,
        mut shared,
    } = trial;
    let settled = group.settle(&mut shared)?;
    Ok((Trial { group, shared }, settled))
}

/// The trial where a thread was given an answer and the threads came to rest.
fn go_on(trial: Trial, thread: u32, given: Answer) -> Result<(Trial, Settled), Fail>
    requires sound { (Grouped (λ (t : Scripted). t.number) (λ (t : Scripted). t.parent) (λ (t : Scripted). t.is_branch) 0 trial.group.seats trial.group.next) × (trial.group.next + trial.shared.left ≤ 4294967295) }
    ensures sound { IfOk result (λ settled. (Grouped (λ (t : Scripted). t.number) (λ (t : Scripted). t.parent) (λ (t : Scripted). t.is_branch) 0 settled.0.group.seats settled.0.group.next) × (settled.0.group.next + settled.0.shared.left ≤ 4294967295)) }
{
    let (trial, taken) = answer(trial, thread, given);
    if !taken {
        return Err("the thread waits for no request".into());
    }
    settle(trial)
}

/// The answer that lets a thread end with this value.
fn done(alloc: Global, code: i32) -> Answer {
    Answer::Done {
        code,
        out: Bytes::new(alloc),
    }
}

/// The end of a branch that the last parent went on with.
fn end(shared: &Shared, at: usize) -> Option<JoinEnd> {
    match shared.ends.get(at) {
        None => None,
        Some(branch) => Some(branch.end),
    }
}

/// The end of a branch with this last node, value and place.
fn ended(node: u32, value: i32, place: u32) -> Option<JoinEnd> {
    Some(JoinEnd {
        node,
        outcome: Outcome::Value(Value::Int(value)),
        place,
    })
}

#[test]
fn branches_that_end_in_any_order_are_joined_in_their_own(rt: HostRuntime) -> Result<(), Fail> {
    let alloc = rt.alloc();
    let (trial, forked) = go_on(begun(alloc)?, 0, Answer::Granted(3))?;
    assert_eq!(rt; forked, Settled::AllWait);
    let (trial, _) = go_on(trial, 2, done(alloc, 20))?;
    let (trial, _) = answer(trial, 3, done(alloc, 30));
    let (trial, joined) = go_on(trial, 1, done(alloc, 10))?;
    assert_eq!(rt; joined, Settled::AllWait);
    assert_eq!(rt;
        trial.shared.turns.as_slice(),
        [0, 0, 1, 2, 3, 2, 1, 3, 0].as_slice()
    );
    assert_eq!(rt; end(&trial.shared, 0), ended(0, 10, 1));
    assert_eq!(rt; end(&trial.shared, 1), ended(1, 20, 0));
    assert_eq!(rt; end(&trial.shared, 2), ended(2, 30, 2));
    assert_eq!(rt; trial.group.threads().len(), 1);
    Ok(())
}

#[test]
fn a_branch_that_forks_goes_on_before_its_parent(rt: HostRuntime) -> Result<(), Fail> {
    let alloc = rt.alloc();
    let (trial, _) = go_on(begun(alloc)?, 0, Answer::Granted(2))?;
    let (trial, _) = go_on(trial, 1, Answer::Granted(1))?;
    let (trial, _) = go_on(trial, 2, done(alloc, 2))?;
    let (trial, _) = go_on(trial, 3, done(alloc, 3))?;
    assert_eq!(rt; end(&trial.shared, 0), ended(0, 3, 0));
    let (trial, _) = go_on(trial, 1, done(alloc, 1))?;
    assert_eq!(rt; end(&trial.shared, 0), ended(0, 1, 1));
    assert_eq!(rt; end(&trial.shared, 1), ended(1, 2, 0));
    let (trial, last) = go_on(trial, 0, done(alloc, 9))?;
    assert_eq!(rt; last, Settled::Ended(Outcome::Value(Value::Int(9))));
    assert_eq!(rt;
        trial.shared.turns.as_slice(),
        [0, 0, 1, 2, 1, 3, 2, 3, 1, 1, 0, 0].as_slice()
    );
    Ok(())
}

#[test]
fn threads_256_live_at_once_and_no_more(rt: HostRuntime) -> Result<(), Fail> {
    let alloc = rt.alloc();
    let (trial, forked) = go_on(begun(alloc)?, 0, Answer::Granted(256))?;
    assert_eq!(rt; forked, Settled::Limit(LimitKind::GreenThreads));
    assert_eq!(rt; trial.group.threads().len(), 1);
    let (trial, forked) = go_on(begun(alloc)?, 0, Answer::Granted(255))?;
    assert_eq!(rt; forked, Settled::AllWait);
    assert_eq!(rt; trial.group.threads().len(), 256);
    let (trial, forked) = go_on(trial, 9, Answer::Granted(1))?;
    assert_eq!(rt; forked, Settled::Limit(LimitKind::GreenThreads));
    let Trial {
        mut group,
        shared: _,
    } = trial;
    if group.next() != 256 {
        return Err("256 threads have other numbers than 0 to 255".into());
    }
    assert_eq!(rt; group.spawn(script()), Err(SpawnRefusal::ThreadLimit));
    Ok(())
}

#[test]
fn only_a_thread_that_waits_for_a_request_takes_an_answer(rt: HostRuntime) -> Result<(), Fail> {
    let alloc = rt.alloc();
    let (trial, _) = go_on(begun(alloc)?, 0, Answer::Granted(1))?;
    let (trial, unknown) = answer(trial, 7, Answer::Begin);
    let (trial, forked) = answer(trial, 0, Answer::Begin);
    let (trial, first) = answer(trial, 1, done(alloc, 1));
    let (trial, again) = answer(trial, 1, done(alloc, 2));
    assert!(rt; !unknown && !forked && first && !again);
    let (trial, _) = settle(trial)?;
    assert_eq!(rt; end(&trial.shared, 0), ended(0, 1, 0));
    Ok(())
}

#[test]
fn a_limit_ends_all_and_clear_keeps_the_next_number(rt: HostRuntime) -> Result<(), Fail> {
    let alloc = rt.alloc();
    let (trial, _) = go_on(begun(alloc)?, 0, Answer::Granted(2))?;
    let by = Text::from_str(alloc, "ann")?;
    let met = Answer::Decided {
        proceed: true,
        name: by,
    };
    let (trial, limit) = go_on(trial, 2, met)?;
    assert_eq!(rt; limit, Settled::Limit(LimitKind::CallDepth));
    assert_eq!(rt; trial.group.threads().len(), 3);
    let Trial {
        mut group,
        shared: _,
    } = trial;
    group.clear();
    assert_eq!(rt; group.threads().len(), 0);
    assert_eq!(rt; group.next(), 3);
    Ok(())
}

/// Thread 3 waits for its branch, thread 5, which waits for a request. The next number is 8.
fn restored(alloc: Global) -> Result<Trial, Fail>
    ensures sound { IfOk result (λ trial. (Grouped (λ (t : Scripted). t.number) (λ (t : Scripted). t.parent) (λ (t : Scripted). t.is_branch) 0 trial.group.seats trial.group.next) × (trial.group.next + trial.shared.left ≤ 4294967295)) }
{
    let mut joins = Joins::new(alloc);
    joins.push(Join {
        name: Text::from_str(alloc, "branch")?,
        thread: 5,
        ended: None,
    })?;
    let mut threads = Vec::new(alloc);
    threads.push(Seated {
        number: 3,
        parent: None,
        wait: Wait::Branches(joins),
        thread: Scripted {
            number: 3,
            parent: None,
            is_branch: false,
            head: 7,
        },
    })?;
    threads.push(Seated {
        number: 5,
        parent: Some(3),
        wait: Wait::Request(1),
        thread: Scripted {
            number: 5,
            parent: Some(3),
            is_branch: true,
            head: 0,
        },
    })?;
    let group = Group::restore(alloc, threads, 8);
    Ok(Trial {
        group,
        shared: Shared::new(alloc),
    })
}

#[test]
fn restored_threads_go_on_and_new_ones_get_the_next_numbers(rt: HostRuntime) -> Result<(), Fail> {
    let alloc = rt.alloc();
    let (trial, _) = go_on(restored(alloc)?, 5, done(alloc, 1))?;
    let (trial, _) = go_on(trial, 3, Answer::Granted(2))?;
    assert_eq!(rt; trial.shared.turns.as_slice(), [5, 3, 3, 8, 9].as_slice());
    assert_eq!(rt; trial.group.next(), 10);
    Ok(())
}
