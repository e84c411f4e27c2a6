//! Lists: their number of items as a `u32`, and then the items.

ghost use Rattle.std.specs.Prelude.{◌≡◌, length};
ghost use Rattle.field_form.specs.Forms.{list_of};
ghost use Rattle.record_form.specs.Sizes.{size_in};

use crate::Measured;
use chain::Chain;
use field_form::{InAnyOrder, Listing};
use model_text::Sequence;

/// How the items of a list are written, each behind those before it, where each item tells how many bytes it takes.
pub trait Sizing<T>: Listing<T> {
    /// How many bytes the spelling of the item has behind those before it, or `u64::MAX` where it has more. It takes
    /// no memory.
    fn size(before: &[T], item: &T) -> u64
        ensures { result ≡ size_in (Self.behind before.now) item.now };
}

impl<T: Measured> Sizing<T> for InAnyOrder {
    fn size(_before: &[T], item: &T) -> u64 {
        item.size()
    }
}

/// How many bytes the spelling of the list has, its number of items and the items, or `u64::MAX` where it has more.
/// It takes no memory.
pub fn list_size<T, L: Sizing<T>>(list: &Sequence<T>) -> u64
    ensures { result ≡ size_in (list_of L.behind) list.now }
{
    let items = list.as_slice();
    let mut size = 4u64;
    for (place, item) in items.iter().enumerate() {
        size = size.saturating_add(L::size(&items[..place], item));
    }
    size
}

impl<T: Measured + Drop> Measured for Sequence<T> {
    fn size(&self) -> u64 {
        list_size::<T, InAnyOrder>(self)
    }
}

impl<T: Measured + Drop> Measured for Chain<T> {
    fn size(&self) -> u64 {
        let mut size = 4u64;
        let mut rest = self;
        while let Some((item, behind)) = rest.split() {
            size = size.saturating_add(item.size());
            rest = behind;
        }
        size
    }
}
