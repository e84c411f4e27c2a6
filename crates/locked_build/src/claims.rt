//! Claims of tasks, and what is open.
ghost use Rattle.std.specs.Prelude.{◌≡◌, ◌<◌, ◌++◌, List, length, MatchOption, None, Some, IfOk, true, false};
ghost use Rattle.durable_build.specs.Lower.build_core.Phases.{has_ended};
ghost use Rattle.build_requests.specs.Waiting.{waiting_inputs, open_tasks};
ghost use Rattle.model_run.specs.Taking.{is_task};
ghost use Rattle.locked_build.specs.Histories.{Quiet};
ghost use Rattle.locked_build.specs.declared.ask.Entry.{Entry};
ghost use Rattle.locked_build.specs.Claims.{is_task_of, is_free, is_busy, first_free, order_as, busy_of, within_u32, ClaimSays};

use crate::ask::Progress;
use crate::indexed::IndexedHistory;
use agent_worker::{Claim, Inputs};
use durable_build::build_core::Build;
use durable_build::script_thread::ScriptThread;
use model_run::{OpenRequest, Request};
use model_text::Bytes;
use std::alloc::{AllocError, Global};
use task_host::Order;

/// Whether it is a task of this executor.
fn is_task_of(executor: u32, request: &Request) -> bool
    ensures { result ≡ is_task_of executor request.now }
{
    match request {
        Request::Task { executor: its, .. } => *its == executor,
        Request::Node { .. } | Request::Input { .. } => false,
    }
}

/// Whether it is a task.
fn is_task(request: &Request) -> bool
    ensures { result ≡ is_task (Some request.now) }
{
    match request {
        Request::Task { .. } => true,
        Request::Node { .. } | Request::Input { .. } => false,
    }
}

/// Whether it is a task of this executor that was not claimed.
fn is_free(history: &IndexedHistory, executor: u32, request: &OpenRequest) -> bool
    ensures { result ≡ is_free history.now.items executor request.now }
{
    is_task_of(executor, &request.request) && !history.is_claimed(request.number)
}

/// Whether it is a task that was claimed.
fn is_busy(history: &IndexedHistory, request: &OpenRequest) -> bool
    ensures { result ≡ is_busy history.now.items request.now }
{
    is_task(&request.request) && history.is_claimed(request.number)
}

/// The first open task of this executor that was not claimed.
fn first_free<'a>(
    requests: &'a [OpenRequest],
    history: &IndexedHistory,
    executor: u32,
) -> Option<&'a OpenRequest>
    ensures { MatchOption result (first_free history.now.items executor requests.now ≡ None) (λ r. first_free history.now.items executor requests.now ≡ Some r.now) }
{
    for request in requests {
        if is_free(history, executor, request) {
            return Some(request);
        }
    }
    None
}

/// How many claims are open.
fn busy_count(requests: &[OpenRequest], history: &IndexedHistory) -> u32
    ensures { result ≡ busy_of history.now.items requests.now }
{
    let mut count: u32 = 0;
    for request in requests {
        if is_busy(history, request) {
            count = count.saturating_add(1);
        }
    }
    count
}

/// A number, or the greatest of 32 bits where it is above that.
fn within_u32(number: usize) -> u32
    ensures { result ≡ within_u32 number }
{
    u32::try_from(number).unwrap_or(u32::MAX)
}

/// The order of a task; none of another request. `AllocError` where the memory was refused.
fn order_for(alloc: Global, request: &OpenRequest) -> Result<Option<Order>, AllocError>
    ensures { IfOk result (λ order. order ≡ order_as request.now.number request.now.request) }
{
    match &request.request {
        Request::Task {
            executor,
            workspace,
            folder,
            env,
            script,
            keep_out,
            taken,
            out,
            ..
        } => Ok(Some(Order {
            task: request.number,
            executor: *executor,
            workspace: Bytes::from_slice(alloc, workspace.as_slice())?,
            folder: Bytes::from_slice(alloc, folder.as_slice())?,
            env: env.clone()?,
            script: Bytes::from_slice(alloc, script.as_slice())?,
            keep_out: *keep_out,
            kept_log: *taken,
            kept_out: out.len() as u64,
        })),
        Request::Node { .. } | Request::Input { .. } => Ok(None),
    }
}

/// Notes the claim of a task, and makes its order.
fn give(
    alloc: Global,
    history: &mut IndexedHistory,
    requests: &[OpenRequest],
    executor: u32,
    request: &OpenRequest,
) -> Claim
    requires room { length history.old.items < history.old.capacity }
    requires first { first_free history.old.items executor requests.now ≡ Some request.now }
    ensures says { (es : List Entry) × (history.new.items ≡ history.old.items ++ es) × Quiet es × ClaimSays requests.now history.old.items executor result es }
    ensures room { length history.new.items < history.new.capacity }
{
    let Ok(Some(order)) = order_for(alloc, request) else {
        return Claim::Memory;
    };
    if history.push_claim(executor, &order).is_err() {
        return Claim::Memory;
    }
    Claim::Order(order)
}

/// Claims the first open task of an executor that was not claimed.
pub fn claim(
    alloc: Global,
    requests: &[OpenRequest],
    history: &mut IndexedHistory,
    executor: u32,
) -> Claim
    requires room { length history.old.items < history.old.capacity }
    ensures says { (es : List Entry) × (history.new.items ≡ history.old.items ++ es) × Quiet es × ClaimSays requests.now history.old.items executor result es }
    ensures room { length history.new.items < history.new.capacity }
{
    match first_free(requests, history, executor) {
        Some(request) => give(alloc, history, requests, executor, request),
        None => {
            let busy = busy_count(requests, history);
            if busy == 0 {
                return Claim::Rest;
            }
            Claim::Idle { busy }
        }
    }
}

/// How many inputs and how many claims are open.
pub fn inputs<R: ScriptThread + Drop>(build: &Build<R>, history: &IndexedHistory) -> Inputs
    ensures waiting { result.waiting ≡ within_u32 (waiting_inputs build.now.shared.requests) }
    ensures busy { result.busy ≡ busy_of history.now.items build.now.shared.requests }
{
    Inputs {
        waiting: within_u32(build.waiting_inputs()),
        busy: busy_count(build.requests(), history),
    }
}

/// How far a build has come that no fault has stopped.
pub fn progress<R: ScriptThread + Drop>(build: &Build<R>) -> Progress
    ensures { result ≡ record { ended = has_ended build.now.phase; stopped = false; tasks = within_u32 (open_tasks build.now.shared.requests); waiting = within_u32 (waiting_inputs build.now.shared.requests) } }
{
    Progress {
        ended: build.has_ended(),
        stopped: false,
        tasks: within_u32(build.open_tasks()),
        waiting: within_u32(build.waiting_inputs()),
    }
}
