//! How items by numbers are written that are new or were changed.

ghost use Rattle.std.specs.Prelude.{◌≡◌, ℕ, IfOk, Option, Some, None};
ghost use Rattle.model_run.specs.Requests.{IsSame};
ghost use Rattle.image_changes.specs.Least.{IsShort, KeepsMost};
ghost use Rattle.image_changes.specs.Seen.{KeepsThread, thread_seen};
ghost use Rattle.image_changes.specs.Walks.{Writes};
ghost use Rattle.delta_form.specs.After.{written_request, written_thread};
ghost use Rattle.delta_form.specs.Numbers.{written_number};

use crate::now::NowThread;
use crate::requests::{copied_request, written_short};
use crate::threads::{new_thread, number_of, written_behind, written_in_place};
use delta_form::{WrittenRequest, WrittenThread};
use image_form::ImageThread;
use model_run::OpenRequest;
use std::alloc::{AllocError, Global};

/// An item as it is written: `T` as an image has it, and `N` as it stands now.
pub(crate) trait Rewrite<T, N>: Drop + Sized {
    ghost by: { T → ℕ };

    /// The item now as the image now has it.
    ghost seen: { N → T };

    /// What is known of an item that stood and the one now at its number.
    ghost known: { T → N → Type 0 };

    ghost number: { Self → ℕ };

    ghost made: { Self → Option T → Option (Option T) };

    ghost shortest: { Self → T → Type 0 };

    /// The number of an item that stood.
    fn number_of(item: &T) -> u32
        ensures { result ≡ by item.now };

    /// The number of an item now.
    fn number_now(item: &N) -> u32
        ensures { result ≡ by (seen item.now) };

    /// A new item.
    fn new_one(alloc: Global, item: &N) -> Result<Self, AllocError>
        ensures number { IfOk result (λ c. number c ≡ by (seen item.now)) }
        ensures made { IfOk result (λ c. made c None ≡ Some (Some (seen item.now))) };

    /// An item of which another stood at its number, as short as it can be written, or nothing where it stood so.
    fn changed_one(alloc: Global, stood: &T, item: &N) -> Result<Option<Self>, AllocError>
        requires same { by stood.now ≡ by (seen item.now) }
        requires known { known stood.now item.now }
        ensures { IfOk result (Writes by number made shortest stood.now (seen item.now)) };
}

impl Rewrite<OpenRequest, OpenRequest> for WrittenRequest {
    ghost by = { λ r. r.number };

    ghost seen = { λ r. r };

    ghost known = { IsSame };

    ghost number = { written_number };

    ghost made = { written_request };

    ghost shortest = { IsShort };

    fn number_of(item: &OpenRequest) -> u32 {
        item.number
    }

    fn number_now(item: &OpenRequest) -> u32 {
        item.number
    }

    fn new_one(_alloc: Global, item: &OpenRequest) -> Result<WrittenRequest, AllocError> {
        Ok(WrittenRequest::Whole(copied_request(item)?))
    }

    fn changed_one(
        alloc: Global,
        stood: &OpenRequest,
        item: &OpenRequest,
    ) -> Result<Option<WrittenRequest>, AllocError> {
        written_short(alloc, stood, item)
    }
}

impl<'a> Rewrite<ImageThread, NowThread<'a>> for WrittenThread {
    ghost by = { λ t. t.number };

    ghost seen = { thread_seen };

    ghost known = { KeepsThread };

    ghost number = { λ w. w.number };

    ghost made = { written_thread };

    ghost shortest = { KeepsMost };

    fn number_of(item: &ImageThread) -> u32
        ensures { result ≡ item.now.number }
    {
        item.number
    }

    fn number_now(item: &NowThread<'a>) -> u32 {
        number_of(item)
    }

    fn new_one(alloc: Global, item: &NowThread<'a>) -> Result<WrittenThread, AllocError> {
        new_thread(alloc, item)
    }

    fn changed_one(
        alloc: Global,
        stood: &ImageThread,
        item: &NowThread<'a>,
    ) -> Result<Option<WrittenThread>, AllocError> {
        match item {
            NowThread::Untouched { parent, wait, .. } => {
                written_in_place(alloc, stood, *parent, wait)
            }
            NowThread::Touched { front, thread } => written_behind(alloc, stood, front, thread),
        }
    }
}
