//! Held executors, and numbers that differ.

ghost use Rattle.std.specs.Prelude.{◌≡◌, true, map, IfOk};
ghost use Rattle.std.specs.Option.{option_copied};
ghost use Rattle.model_run.specs.Fitting.{Rises};
ghost use Rattle.image_check.specs.Requests.{all_differ, held_fault, held_faults, numbers_rise};

use crate::lookup::{is_higher, number_of, numbered, numbers_rise};
use crate::requests::has_executor;
use crate::scan::{Check, first_in, need, outside};
use crate::{CheckKind, Finding};
use image_form::Image;
use model_run::{Held, OpenRequest, Site};
use std::alloc::{AllocError, Global};

/// The first fault of the held executors. `AllocError` where the memory was refused.
pub(crate) fn held_faults(
    alloc: Global,
    site: &Site,
    image: &Image,
) -> Result<Option<Finding>, AllocError>
    ensures { IfOk result (λ found. found ≡ held_faults site.now image.now) }
{
    let around = HeldAround {
        site,
        image,
        requests_rise: numbers_rise(image.requests.as_slice()),
    };
    let found = first_in::<HeldAround, Held, HeldCheck>(&around, image.held.as_slice());
    if found.is_some() {
        return Ok(found);
    }
    let differ = all_differ(held_requests(alloc, image.held.as_slice())?);
    Ok(need(differ, outside(CheckKind::Executor)))
}

#[derive(Drop)]
struct HeldAround<'a> {
    site: &'a Site,
    image: &'a Image,
    requests_rise: bool,
}

struct HeldCheck;

impl<'a> Check<HeldAround<'a>, Held> for HeldCheck {
    ghost known = { λ a. a.requests_rise ≡ true → Rises (map (λ r. r.number) a.image.now.requests) };

    ghost fault = { λ a. held_fault a.site.now a.image.now };

    fn fault_of(
        around: &HeldAround<'a>,
        _place: usize,
        before: Option<&Held>,
        item: &Held,
    ) -> Option<Finding> {
        let requests = around.image.requests.as_slice();
        let fits = is_higher(number_of(before), item.executor)
            && has_executor(around.site, item.executor)
            && numbered::<OpenRequest>(requests, around.requests_rise, item.request).is_none();
        need(fits, outside(CheckKind::Executor))
    }
}

/// The requests that hold executors. `AllocError` where the memory was refused.
pub(crate) fn held_requests(alloc: Global, held: &[Held]) -> Result<Vec<u32>, AllocError>
    ensures { IfOk result (λ requests. requests.items ≡ map (λ x. x.request) held.now) }
{
    let mut requests = Vec::with_capacity(alloc, held.len())?;
    for one in held {
        requests.push(one.request)?;
    }
    Ok(requests)
}

/// Whether no number stands twice. It takes the time of a sort.
pub(crate) fn all_differ(mut numbers: Vec<u32>) -> bool
    ensures { result ≡ all_differ numbers.items }
{
    numbers.sort_unstable();
    rise(numbers.as_slice())
}

/// Whether each number is above the one before it.
fn rise(numbers: &[u32]) -> bool
    ensures { result ≡ numbers_rise (λ n. n) numbers.now }
{
    let mut before = None;
    for number in numbers {
        if !is_higher(before, *number) {
            return false;
        }
        before = Some(*number);
    }
    true
}
