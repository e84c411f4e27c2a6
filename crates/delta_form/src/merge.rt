//! Lists by rising keys with changes made at some of the keys, in one walk over both.

ghost use Rattle.std.specs.Prelude.{◌≡◌, [], ◌++◌, IfOk, OnOk};
ghost use Rattle.std.specs.Ordering.{is_eq, is_lt};
ghost use Rattle.delta_form.specs.Applying.{Applies, Leaves, in_turn};
ghost use Rattle.delta_form.specs.Changes.{EachBelow, changed, first_if, merged, parted};

use crate::DeltaRefusal;
use crate::change::Change;
use crate::put::appended;
use model_text::Sequence;
use std::alloc::{AllocError, Global};
use std::collections::VecDeque;

/// The items with the changes made. `Fault` where one is not defined on what stands at its key, `Memory` where there
/// is none.
pub(crate) fn changed<T: Drop, C: Change<T>>(
    alloc: Global,
    items: Sequence<T>,
    changes: Sequence<C>,
) -> Result<Sequence<T>, DeltaRefusal>
    requires { EachBelow C.changing.order changes }
    ensures { Applies result (changed C.changing changes items) }
{
    if changes.is_empty() {
        return Ok(items);
    }
    let mut done = Sequence::new(alloc);
    let mut rest = VecDeque::from_vec(items.into_vec());
    merge(&mut done, &mut rest, changes)?;
    Ok(joined(done, rest)?)
}

fn joined<T: Drop>(done: Sequence<T>, rest: VecDeque<T>) -> Result<Sequence<T>, AllocError>
    ensures { IfOk result (λ all. all ≡ done ++ rest.items) }
{
    appended(done, Sequence::from_vec(rest.into_vec()))
}

fn merge<T: Drop, C: Change<T>>(
    done: &mut Sequence<T>,
    rest: &mut VecDeque<T>,
    changes: Sequence<C>,
) -> Result<(), DeltaRefusal>
    ensures { Leaves result (done.new, rest.new.items) (in_turn (merged C.changing) changes (done.old, rest.old.items)) }
{
    for change in changes.into_vec() {
        merge_one(done, rest, change)?;
    }
    Ok(())
}

fn merge_one<T: Drop, C: Change<T>>(
    done: &mut Sequence<T>,
    rest: &mut VecDeque<T>,
    change: C,
) -> Result<(), DeltaRefusal>
    ensures { Leaves result (done.new, rest.new.items) (merged C.changing change (done.old, rest.old.items)) }
{
    pass_below(done, rest, &change)?;
    let stood = pop_at(rest, &change);
    if let Some(item) = change.make(stood)? {
        done.push(item)?;
    }
    Ok(())
}

/// Puts the items in front that are below the key of the change behind `done`.
fn pass_below<T: Drop, C: Change<T>>(
    done: &mut Sequence<T>,
    rest: &mut VecDeque<T>,
    change: &C,
) -> Result<(), AllocError>
    ensures passed { OnOk result (done.new ≡ done.old ++ (parted (λ x. C.changing.compare x change.now) rest.old.items).0) }
    ensures left { OnOk result (parted (λ x. C.changing.compare x change.now) rest.new.items ≡ ([], (parted (λ x. C.changing.compare x change.now) rest.old.items).1)) }
{
    while let Some(item) = pop_below(rest, change) {
        done.push(item)?;
    }
    Ok(())
}

/// Takes the item in front out where it is below the key of the change.
fn pop_below<T, C: Change<T>>(rest: &mut VecDeque<T>, change: &C) -> Option<T>
    ensures { (result, rest.new.items) ≡ first_if (λ x. is_lt (C.changing.compare x change.now)) rest.old.items }
{
    if rest
        .front()
        .is_some_and(|item| change.compare(item).is_lt())
    {
        rest.pop_front()
    } else {
        None
    }
}

/// Takes the item in front out where it has the key of the change.
fn pop_at<T, C: Change<T>>(rest: &mut VecDeque<T>, change: &C) -> Option<T>
    ensures { (result, rest.new.items) ≡ first_if (λ x. is_eq (C.changing.compare x change.now)) rest.old.items }
{
    if rest
        .front()
        .is_some_and(|item| change.compare(item).is_eq())
    {
        rest.pop_front()
    } else {
        None
    }
}
