//! Open requests by their numbers.
ghost use Rattle.std.specs.Prelude.{◌≡◌, Some, find, nat_eq, not, is_some, true, ℕ};
ghost use Rattle.std.specs.List.{filter};
ghost use Rattle.std.specs.Option.{option_copied};
ghost use Rattle.model_run.specs.Taking.{request_of};
ghost use Rattle.model_run.specs.Fitting.{Rise};
ghost use Rattle.model_run.specs.Requests.{numbers_of};
ghost use Rattle.build_requests.specs.Places.{place_of};

use model_run::{OpenRequest, OpenRequests, Request};
use std::alloc::Global;
use std::mem;

/// What the open request of this number asks; `None` exactly where none of this number is open.
pub fn request_of(requests: &[OpenRequest], number: u32) -> Option<&Request>
    ensures { option_copied result ≡ request_of requests.now number }
{
    for open in requests {
        if open.number == number {
            return Some(&open.request);
        }
    }
    None
}

/// The place of the open request of this number.
fn place_of(requests: &[OpenRequest], number: u32) -> Option<usize>
    ensures { result ≡ place_of number requests.now }
{
    for place in 0..requests.len() {
        if requests[place].number == number {
            return Some(place);
        }
    }
    None
}

/// Takes the open request of this number out. It takes no memory. There has to be one, and the numbers have to rise.
pub fn close(alloc: Global, requests: &mut OpenRequests, number: u32) -> OpenRequest
    requires open { is_some (request_of requests.old number) ≡ true }
    requires rise { (next : ℕ) × Rise 0 next (numbers_of requests.old) }
    ensures closed { find (λ r. nat_eq r.number number) requests.old ≡ Some result }
    ensures others { requests.new ≡ filter (λ r. not (nat_eq r.number number)) requests.old }
{
    let Some(place) = place_of(requests.as_slice(), number) else {
        unreachable!()
    };
    let mut rows = mem::replace(requests, OpenRequests::new(alloc)).into_vec();
    let closed = rows.remove(place);
    *requests = OpenRequests::from_vec(rows);
    closed
}
