use agent_queue::{Queue, QueueRefusal};
use label_expr::{LabelExpr, parse};
use model_run::{Executor, Executors, Held, OpenRequest, Request, Site};
use model_text::{Text, Texts};
use std::alloc::{AllocError, Global};
use std::test::Fail;

/// An executor of an agent that has no labels but its name.
fn executor(alloc: Global, number: u32, agent: &str) -> Result<Executor, AllocError> {
    Ok(Executor {
        number,
        agent: Text::from_str(alloc, agent)?,
        root: Text::from_str(alloc, "/w")?,
        labels: Texts::new(alloc),
        slot: 0,
    })
}

fn site(alloc: Global, executors: Executors) -> Result<Site, AllocError> {
    Ok(Site {
        job: Text::from_str(alloc, "demo")?,
        looks: 100_000,
        executors,
    })
}

/// One agent, `m`, with one executor.
fn one_agent(alloc: Global) -> Result<Site, AllocError> {
    let mut executors = Executors::new(alloc);
    executors.push(executor(alloc, 0, "m")?)?;
    site(alloc, executors)
}

/// Two agents, `m` and `n`, with one executor each.
fn two_agents(alloc: Global) -> Result<Site, AllocError> {
    let mut executors = Executors::new(alloc);
    executors.push(executor(alloc, 0, "m")?)?;
    executors.push(executor(alloc, 1, "n")?)?;
    site(alloc, executors)
}

/// A queue of two agents; two requests wait for the second, and behind them one for either.
fn two_for_one(alloc: Global) -> Result<Queue, Fail> {
    let mut queue = Queue::new(alloc, &two_agents(alloc)?)?;
    queue.ask(1, parse(alloc, b"n")?)?;
    queue.ask(2, parse(alloc, b"n")?)?;
    queue.ask(3, LabelExpr::Any)?;
    Ok(queue)
}

#[test]
fn the_earliest_request_that_fits_is_served(rt: HostRuntime) -> Result<(), Fail> {
    let mut queue = two_for_one(rt.alloc())?;
    for grant in [Some((1, 1)), Some((3, 0)), None] {
        assert_eq!(rt; queue.next_grant(), grant);
    }
    assert!(rt; queue.release(1));
    assert!(rt; !queue.release(1));
    assert_eq!(rt; queue.next_grant(), Some((2, 1)));
    Ok(())
}

#[test]
fn a_cancelled_request_waits_no_longer(rt: HostRuntime) -> Result<(), Fail> {
    let mut queue = two_for_one(rt.alloc())?;
    queue.cancel(1);
    assert_eq!(rt; queue.next_grant(), Some((2, 1)));
    Ok(())
}

#[test]
fn a_rebuilt_queue_goes_on(rt: HostRuntime) -> Result<(), Fail> {
    let alloc = rt.alloc();
    let held = [Held {
        executor: 0,
        request: 1,
        workspace: 1,
    }];
    let asked = [OpenRequest {
        number: 2,
        thread: 1,
        request: Request::Node { label: None },
    }];
    let mut queue = Queue::rebuild(alloc, &one_agent(alloc)?, &asked, &held)?;
    assert_eq!(rt; queue.next_grant(), None);
    assert!(rt; queue.release(1));
    assert_eq!(rt; queue.next_grant(), Some((2, 0)));
    Ok(())
}

#[test]
fn an_executor_that_is_not_of_the_site_is_unknown(rt: HostRuntime) -> Result<(), Fail> {
    let held = [Held {
        executor: 9,
        request: 1,
        workspace: 1,
    }];
    let refusal = Queue::rebuild(rt.alloc(), &one_agent(rt.alloc())?, &[], &held).err();
    assert_eq!(rt; refusal, Some(QueueRefusal::Unknown { executor: 9 }));
    Ok(())
}
