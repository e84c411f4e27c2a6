//! Two lists of items by rising numbers, in one walk over both.

ghost use Rattle.std.specs.Prelude.{◌≡◌, ◌⊎◌, ◌<◌, ◌≤◌, ◌+◌, ◌++◌, ◌∷◌, [], IfOk, OnOk, length, map};
ghost use Rattle.model_run.specs.Fitting.{Rises};
ghost use Rattle.delta_form.specs.Changes.{by_number};
ghost use Rattle.image_changes.specs.Least.{AllNeeded};
ghost use Rattle.image_changes.specs.Parts.{Renews};
ghost use Rattle.image_changes.specs.Walks.{Adds, AllKnown, Goes, Stays};

use crate::rewrite::Rewrite;
use model_text::{Ids, Sequence};
use std::alloc::{AllocError, Global};
use std::cmp::Ordering;

/// How far a walk over a list before and a list now has come, and what it has found.
#[derive(Drop)]
pub(crate) struct Walk<C> {
    /// How many items before it has passed.
    pub had: usize,
    /// How many items now it has passed.
    pub has: usize,
    /// The numbers of those that are gone.
    pub gone: Ids,
    /// Those that are new or were changed.
    pub written: Sequence<C>,
}

/// The walk that makes the items now of the items before.
pub(crate) fn renewal<T, N, C: Rewrite<T, N>>(
    alloc: Global,
    before: &[T],
    now: &[N],
) -> Result<Walk<C>, AllocError>
    requires before { Rises (map C.by before.now) }
    requires now { Rises (map C.by (map C.seen now.now)) }
    requires known { AllKnown C.by C.seen C.known before.now now.now }
    ensures renews { IfOk result (λ walk. Renews C.by C.number (by_number C.by C.number C.made) before.now (map C.seen now.now) walk.gone walk.written) }
    ensures needed { IfOk result (λ walk. AllNeeded C.by C.number C.made C.shortest before.now walk.written) }
{
    let mut walk = Walk {
        had: 0,
        has: 0,
        gone: Ids::new(alloc),
        written: Sequence::new(alloc),
    };
    while walk.had < before.len() || walk.has < now.len() {
        pass(&mut walk, alloc, before, now)?;
    }
    Ok(walk)
}

/// Passes the item with the lowest number.
fn pass<T, N, C: Rewrite<T, N>>(
    walk: &mut Walk<C>,
    alloc: Global,
    before: &[T],
    now: &[N],
) -> Result<(), AllocError>
    requires before { Rises (map C.by before.now) }
    requires now { Rises (map C.by (map C.seen now.now)) }
    requires known { AllKnown C.by C.seen C.known before.now now.now }
    requires within { (walk.old.had ≤ length before.now) × (walk.old.has ≤ length now.now) }
    requires more { (walk.old.had < length before.now) ⊎ (walk.old.has < length now.now) }
    ensures within { OnOk result ((walk.new.had ≤ length before.now) × (walk.new.has ≤ length now.now)) }
    ensures further { OnOk result (walk.old.had + walk.old.has < walk.new.had + walk.new.has) }
    ensures goes { Goes C.by C.number C.made C.shortest before.now (map C.seen now.now) walk.old → OnOk result (Goes C.by C.number C.made C.shortest before.now (map C.seen now.now) walk.new) }
{
    match (before.get(walk.had), now.get(walk.has)) {
        (Some(stood), Some(item)) => match C::number_of(stood).cmp(&C::number_now(item)) {
            Ordering::Less => leave::<T, N, C>(walk, stood),
            Ordering::Equal => keep::<T, N, C>(walk, alloc, stood, item),
            Ordering::Greater => add::<T, N, C>(walk, alloc, item),
        },
        (Some(stood), None) => leave::<T, N, C>(walk, stood),
        (None, Some(item)) => add::<T, N, C>(walk, alloc, item),
        (None, None) => Ok(()),
    }
}

/// Passes an item that stands no longer.
fn leave<T, N, C: Rewrite<T, N>>(walk: &mut Walk<C>, stood: &T) -> Result<(), AllocError>
    requires { walk.old.had < 18446744073709551615 }
    ensures { OnOk result (walk.new ≡ record walk.old { had = walk.old.had + 1; gone = walk.old.gone ++ C.by stood.now ∷ [] }) }
{
    walk.gone.push(C::number_of(stood))?;
    walk.had += 1;
    Ok(())
}

/// Passes an item that is new.
fn add<T, N, C: Rewrite<T, N>>(
    walk: &mut Walk<C>,
    alloc: Global,
    item: &N,
) -> Result<(), AllocError>
    requires { walk.old.has < 18446744073709551615 }
    ensures { OnOk result (Adds C.by C.number C.made walk.old (C.seen item.now) walk.new) }
{
    walk.written.push(C::new_one(alloc, item)?)?;
    walk.has += 1;
    Ok(())
}

/// Passes an item that stood.
fn keep<T, N, C: Rewrite<T, N>>(
    walk: &mut Walk<C>,
    alloc: Global,
    stood: &T,
    item: &N,
) -> Result<(), AllocError>
    requires same { C.by stood.now ≡ C.by (C.seen item.now) }
    requires known { C.known stood.now item.now }
    requires fits { (walk.old.had < 18446744073709551615) × (walk.old.has < 18446744073709551615) }
    ensures { OnOk result (Stays C.by C.number C.made C.shortest walk.old stood.now (C.seen item.now) walk.new) }
{
    if let Some(change) = C::changed_one(alloc, stood, item)? {
        walk.written.push(change)?;
    }
    walk.had += 1;
    walk.has += 1;
    Ok(())
}
