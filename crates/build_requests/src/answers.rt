//! What a build says to an event.
ghost use Rattle.std.specs.Prelude.{◌≡◌, List, IfOk, OnErr};
ghost use Rattle.model_run.specs.declared.request.OpenRequest.{OpenRequest};
ghost use Rattle.std.specs.Option.{option_copied};
ghost use Rattle.model_run.specs.Grants.{executor_of};
ghost use Rattle.model_run.specs.Taking.{request_of, answered, answered_first, accepted_if, granted, kept, output_at, is_task, is_input, may_get};
ghost use Rattle.build_requests.specs.Standings.{standing_of};
ghost use Rattle.build_requests.specs.Memory.{IsFree, AsksFit, NeedsMemory};

use crate::executors::{executor_fits, executor_of, is_held};
use crate::requests::request_of;
use model_run::{Event, Held, OpenRequest, Request, Site, Stream, Taken};
use model_text::Text;
use std::alloc::{AllocError, Global};

/// What a build that has not begun says to an event. It takes no memory.
pub fn answer_first(event: &Event) -> Taken
    ensures { result ≡ answered_first event.now }
{
    match event {
        Event::Start { .. } => Taken::Accepted,
        _ => Taken::NotOpen,
    }
}

/// What a build that has begun and not ended says to an event, by its site, its open requests and its held executors.
/// `AllocError` where the memory was refused, which only a grant takes: of an open request of a `node` step, and of an
/// executor that is free.
pub fn answer_running(
    alloc: Global,
    site: &Site,
    requests: &[OpenRequest],
    held: &[Held],
    event: &Event,
) -> Result<Taken, AllocError>
    ensures taken { IfOk result (λ taken. taken ≡ answered (standing_of site.now requests.now held.now) event.now) }
    ensures memory { OnErr result (NeedsMemory (standing_of site.now requests.now held.now) event.now) }
{
    match event {
        Event::Start { .. } => Ok(Taken::NotOpen),
        Event::Granted { request, executor } => {
            let asked = request_of(requests, *request);
            answer_grant(alloc, site, held, asked, *executor)
        }
        Event::Output {
            task,
            stream,
            from,
            ..
        } => Ok(answer_output(request_of(requests, *task), *stream, *from)),
        Event::Exited { task, .. } | Event::Lost { task, .. } => {
            Ok(accepted_if(is_task(request_of(requests, *task))))
        }
        Event::Decided { request, .. } => {
            Ok(accepted_if(is_input(request_of(requests, *request))))
        }
    }
}

fn accepted_if(test: bool) -> Taken
    ensures { result ≡ accepted_if test }
{
    if test {
        Taken::Accepted
    } else {
        Taken::NotOpen
    }
}

fn is_task(request: Option<&Request>) -> bool
    ensures { result ≡ is_task (option_copied request.entry) }
{
    matches!(request, Some(Request::Task { .. }))
}

fn is_input(request: Option<&Request>) -> bool
    ensures { result ≡ is_input (option_copied request.entry) }
{
    matches!(request, Some(Request::Input { .. }))
}

/// A grant is of an open request of a `node` step, and of an executor that it may get.
fn answer_grant(
    alloc: Global,
    site: &Site,
    held: &[Held],
    asked: Option<&Request>,
    executor: u32,
) -> Result<Taken, AllocError>
    ensures taken { IfOk result (λ taken. (requests : List OpenRequest) → taken ≡ granted (standing_of site.now requests held.now) executor (option_copied asked.entry)) }
    ensures memory { OnErr result (AsksFit held.now (executor_of site.now executor) (option_copied asked.entry)) }
{
    match asked {
        Some(Request::Node { label }) => {
            let may = may_get(alloc, site, held, label.as_ref(), executor)?;
            Ok(accepted_if(may))
        }
        _ => Ok(Taken::NotOpen),
    }
}

/// Whether a `node` step with this label may get the executor of this number.
fn may_get(
    alloc: Global,
    site: &Site,
    held: &[Held],
    label: Option<&Text>,
    executor: u32,
) -> Result<bool, AllocError>
    ensures may { IfOk result (λ may. may ≡ may_get (option_copied label.entry) held.now (executor_of site.now executor)) }
    ensures memory { OnErr result (IsFree held.now (executor_of site.now executor)) }
{
    match executor_of(site, executor) {
        Some(executor) if !is_held(held, executor.number) => executor_fits(alloc, label, executor),
        _ => Ok(false),
    }
}

/// Output goes on where that stream of the task was left.
fn answer_output(asked: Option<&Request>, stream: Stream, from: u64) -> Taken
    ensures { result ≡ output_at from (kept stream (option_copied asked.entry)) }
{
    match kept(asked, stream) {
        Some(kept) if kept == from => Taken::Accepted,
        Some(kept) => Taken::WrongPlace { kept },
        None => Taken::NotOpen,
    }
}

/// How many bytes of a stream were already taken; `None` where the request has no such stream.
fn kept(asked: Option<&Request>, stream: Stream) -> Option<u64>
    ensures { result ≡ kept stream (option_copied asked.entry) }
{
    let Some(
        Request::Task {
            keep_out,
            taken,
            out,
            ..
        },
    ) = asked
    else {
        return None;
    };
    match stream {
        Stream::Log => Some(*taken),
        Stream::Out if *keep_out => Some(out.len() as u64),
        Stream::Out => None,
    }
}
