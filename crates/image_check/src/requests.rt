//! Open requests.

ghost use Rattle.std.specs.Prelude.{◌≡◌, ◌&&◌, ◌||◌, true, not, nat_eq, None, map, is_some, slice_get, IfOk};
ghost use Rattle.std.specs.List.{list_any};
ghost use Rattle.std.specs.Option.{option_copied, option_map};
ghost use Rattle.model_run.specs.Fitting.{Rises};
ghost use Rattle.model_run.specs.Grants.{executor_of};
ghost use Rattle.model_run.specs.Labels.{label_fault};
ghost use Rattle.model_run.specs.StepTable.{has_blank};
ghost use Rattle.image_check.specs.Requests.{has_waiter, is_empty, is_sound, is_numbered, is_wait_for, request_fault, request_tests, runs_there};
ghost use Rattle.image_check.specs.Scans.{each};

use crate::lookup::{is_higher, number_of, numbered, numbers_rise};
use crate::scan::{need, outside};
use crate::{CheckKind, Finding};
use image_form::{Image, ImageThread};
use label_expr::{LabelRefusal, read_label};
use model_run::{Executor, OpenRequest, Request, Site, Wait};
use model_text::Text;
use std::alloc::{AllocError, Global};

/// The first fault of the open requests. `AllocError` where the memory was refused.
pub(crate) fn requests_fault(
    alloc: Global,
    site: &Site,
    image: &Image,
) -> Result<Option<Finding>, AllocError>
    ensures { IfOk result (λ found. found ≡ each (request_fault site.now image.now) 0 None image.now.requests) }
{
    let threads_rise = numbers_rise(image.threads.as_slice());
    let mut before = None;
    for request in image.requests.as_slice() {
        let found = request_fault(alloc, site, image, threads_rise, before, request)?;
        if found.is_some() {
            return Ok(found);
        }
        before = Some(request);
    }
    Ok(None)
}

/// The first fault of a request behind the one with the number before.
fn request_fault(
    alloc: Global,
    site: &Site,
    image: &Image,
    threads_rise: bool,
    before: Option<&OpenRequest>,
    request: &OpenRequest,
) -> Result<Option<Finding>, AllocError>
    requires { threads_rise ≡ true → Rises (map (λ t. t.number) image.now.threads) }
    ensures { IfOk result (λ found. found ≡ request_tests site.now image.now (option_map (λ r. r.number) (option_copied before.entry)) request.now) }
{
    let logged = image.log.len() as u64;
    let thread = numbered::<ImageThread>(image.threads.as_slice(), threads_rise, request.thread);
    let fits = is_higher(number_of(before), request.number)
        && is_sound(alloc, logged, &request.request)?
        && has_waiter(request.number, thread);
    if !fits {
        return Ok(Some(outside(CheckKind::Request)));
    }
    Ok(need(
        runs_there(site, &request.request),
        outside(CheckKind::Executor),
    ))
}

/// Whether a request is as one of its kind is. `AllocError` where the memory was refused.
fn is_sound(alloc: Global, logged: u64, request: &Request) -> Result<bool, AllocError>
    ensures { IfOk result (λ sound. sound ≡ is_sound logged request.now) }
{
    match request {
        Request::Node { label } => has_no_fault(alloc, label.as_ref()),
        Request::Task { taken, .. } => Ok(taken.saturating_sub(logged) <= 4611686018427387904),
        Request::Input { id } => Ok(is_identifier(id.as_slice())),
    }
}

/// Whether an id is not empty and has no blank.
fn is_identifier(id: &[u8]) -> bool
    ensures { result ≡ (not (is_empty id.now) && not (has_blank id.now)) }
{
    match id {
        [] => false,
        _ => !has_blank(id),
    }
}

/// Whether a space or a tab is among these bytes.
fn has_blank(text: &[u8]) -> bool
    ensures { result ≡ has_blank text.now }
{
    text.iter().any(|byte| is_blank(*byte))
}

fn is_blank(byte: u8) -> bool
    ensures { result ≡ (nat_eq byte 32 || nat_eq byte 9) }
{
    byte == 32 || byte == 9
}

/// Whether a label has no fault. `AllocError` where the memory was refused.
fn has_no_fault(alloc: Global, label: Option<&Text>) -> Result<bool, AllocError>
    ensures { IfOk result (λ sound. sound ≡ not (is_some (label_fault (option_copied label.entry)))) }
{
    match read_label(alloc, label) {
        Ok(_) => Ok(true),
        Err(LabelRefusal::Fault { .. }) => Ok(false),
        Err(LabelRefusal::Memory) => Err(AllocError),
    }
}

/// Whether the thread is there and waits for this request.
fn has_waiter(request: u32, thread: Option<&ImageThread>) -> bool
    ensures { result ≡ has_waiter request (option_copied thread.entry) }
{
    match thread {
        Some(thread) => is_wait_for(request, &thread.wait),
        None => false,
    }
}

/// Whether this is a wait for this request.
fn is_wait_for(request: u32, wait: &Wait) -> bool
    ensures { result ≡ is_wait_for request wait.now }
{
    match wait {
        Wait::Request(number) => *number == request,
        _ => false,
    }
}

/// Whether the executor of a task is one of the site's.
fn runs_there(site: &Site, request: &Request) -> bool
    ensures { result ≡ runs_there site.now request.now }
{
    match request {
        Request::Task { executor, .. } => has_executor(site, *executor),
        _ => true,
    }
}

/// Whether an executor is one of the site's. Those of an agents file are found at once.
pub(crate) fn has_executor(site: &Site, number: u32) -> bool
    ensures { result ≡ is_some (executor_of site.now number) }
{
    let executors = site.executors.as_slice();
    has_number(executor_at(executors, number), number) || is_among(executors, number)
}

/// The executor at this place.
fn executor_at(executors: &[Executor], place: u32) -> Option<&Executor>
    ensures { option_copied result ≡ slice_get executors.now place }
{
    executors.get(place as usize)
}

/// Whether one of these executors has this number.
fn is_among(executors: &[Executor], number: u32) -> bool
    ensures { result ≡ list_any (λ x. nat_eq x.number number) executors.now }
{
    executors.iter().any(|executor| executor.number == number)
}

/// Whether there is an executor, and this is its number.
fn has_number(executor: Option<&Executor>, number: u32) -> bool
    ensures { result ≡ is_numbered number (option_copied executor.entry) }
{
    match executor {
        Some(executor) => executor.number == number,
        None => false,
    }
}
