//! Output of tasks.
ghost use Rattle.std.specs.Prelude.{◌≡◌, ◌+◌, ◌<◌, ◌≤◌, ◌^◌, ◌++◌, length, map, Some, OnOk};
ghost use Rattle.std.specs.List.{AllByRecursion as AllAre};
ghost use Rattle.model_run.specs.World.{change_if, with_taken, with_kept, kept_output};
ghost use Rattle.model_run.specs.Taking.{request_of};
ghost use Rattle.build_requests.specs.Output.{TakenBelow};

use crate::requests::request_of;
use model_run::{OpenRequests, Request};
use model_text::Bytes;
use std::alloc::{AllocError, Global};
use std::mem;

/// How many bytes of its output stream are kept of the open task of this number; 0 where it is none.
pub fn kept_len(requests: &OpenRequests, task: u32) -> usize
    ensures { result ≡ length (kept_output (request_of requests.now task)) }
{
    match request_of(requests.as_slice(), task) {
        Some(Request::Task { out, .. }) => out.len(),
        _ => 0,
    }
}

/// What was kept of the output stream of a task; nothing of another request. It takes no memory.
pub fn take_output(alloc: Global, request: Request) -> Bytes
    ensures { result ≡ kept_output (Some request) }
{
    match request {
        Request::Task { out, .. } => out,
        Request::Node { .. } | Request::Input { .. } => Bytes::new(alloc),
    }
}

/// So many bytes more of its log stream were taken of the open task of this number. It takes no memory.
pub fn count_taken(alloc: Global, requests: &mut OpenRequests, task: u32, bytes: u64)
    requires { AllAre (λ r. TakenBelow (2 ^ 64) bytes r.request) requests.old }
    ensures { requests.new ≡ map (change_if (with_taken bytes) task) requests.old }
{
    let mut rows = mem::replace(requests, OpenRequests::new(alloc)).into_vec();
    for open in rows.iter_mut() {
        if open.number == task {
            add_taken(&mut open.request, bytes);
        }
    }
    *requests = OpenRequests::from_vec(rows);
}

/// So many bytes more were taken of a task.
fn add_taken(request: &mut Request, bytes: u64)
    requires { TakenBelow (2 ^ 64) bytes request.old }
    ensures { request.new ≡ with_taken bytes request.old }
{
    if let Request::Task { taken, .. } = request {
        *taken += bytes;
    }
}

/// Keeps these bytes behind what is kept of the output stream of the open task of this number. After `AllocError`, where
/// the memory was refused, the requests are open.
pub fn keep_output(
    alloc: Global,
    requests: &mut OpenRequests,
    task: u32,
    bytes: &[u8],
) -> Result<(), AllocError>
    ensures { OnOk result (requests.new ≡ map (change_if (with_kept bytes.now) task) requests.old) }
{
    let mut rows = mem::replace(requests, OpenRequests::new(alloc)).into_vec();
    for open in rows.iter_mut() {
        if open.number == task {
            add_kept(alloc, &mut open.request, bytes)?;
        }
    }
    *requests = OpenRequests::from_vec(rows);
    Ok(())
}

/// Keeps bytes of a task.
fn add_kept(alloc: Global, request: &mut Request, bytes: &[u8]) -> Result<(), AllocError>
    ensures { OnOk result (request.new ≡ with_kept bytes.now request.old) }
{
    if let Request::Task { out, .. } = request {
        let mut kept = mem::replace(out, Bytes::new(alloc)).into_vec();
        kept.extend_from_slice(bytes)?;
        *out = Bytes::from_vec(kept);
    }
    Ok(())
}
