//! Items by rising numbers, of which some are gone, and some are new or were changed.

ghost use Rattle.std.specs.Ordering.{nat_cmp, on};
ghost use Rattle.delta_form.specs.Applying.{Applies};
ghost use Rattle.delta_form.specs.Changes.{EachBelow};
ghost use Rattle.delta_form.specs.After.{renewed};

use crate::DeltaRefusal;
use crate::apart::are_apart;
use crate::change::Change;
use crate::merge::changed;
use crate::numbered::Numbered;
use model_text::{Ids, Sequence};
use std::alloc::Global;

/// The items without those with these numbers, and with the changes made. `Fault` where one of the numbers does not
/// stand, or is that of a change, or a change is not defined on what stands at its number; `Memory` where there is
/// none.
pub(crate) fn renewed<T: Numbered + Drop, C: Numbered + Change<T>>(
    alloc: Global,
    items: Sequence<T>,
    gone: Ids,
    changes: Sequence<C>,
) -> Result<Sequence<T>, DeltaRefusal>
    requires gone { EachBelow nat_cmp gone }
    requires numbers { EachBelow (on C.by nat_cmp) changes }
    requires changes { EachBelow C.changing.order changes }
    ensures { Applies result (renewed T.by C.by C.changing gone changes items) }
{
    if !are_apart(gone.as_slice(), changes.as_slice()) {
        return Err(DeltaRefusal::Fault);
    }
    let left = changed::<T, u32>(alloc, items, gone)?;
    changed::<T, C>(alloc, left, changes)
}
