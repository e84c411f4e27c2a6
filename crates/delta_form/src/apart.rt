//! Whether two lists of rising numbers have one in common.

ghost use Rattle.std.specs.Prelude.{◌≡◌, map};
ghost use Rattle.std.specs.Ordering.{nat_cmp, on};
ghost use Rattle.delta_form.specs.Changes.{EachBelow};
ghost use Rattle.delta_form.specs.After.{are_apart};
ghost use Rattle.delta_form.specs.Numbers.{begins_at, from_number};

use crate::numbered::Numbered;

/// Whether no item has one of the numbers.
pub(crate) fn are_apart<T: Numbered>(numbers: &[u32], items: &[T]) -> bool
    requires numbers { EachBelow nat_cmp numbers.now }
    requires items { EachBelow (on T.by nat_cmp) items.now }
    ensures { result ≡ are_apart numbers.now (map T.by items.now) }
{
    let mut rest = items;
    for number in numbers {
        rest = from_number(rest, *number);
        if begins_at(rest, *number) {
            return false;
        }
    }
    true
}

/// The items behind those in front that have lower numbers.
fn from_number<T: Numbered>(items: &[T], number: u32) -> &[T]
    ensures { result.now ≡ from_number T.by number items.now }
{
    for (place, item) in items.iter().enumerate() {
        if item.number() >= number {
            return &items[place..];
        }
    }
    &[]
}

/// Whether the first item has this number.
fn begins_at<T: Numbered>(items: &[T], number: u32) -> bool
    ensures { result ≡ begins_at T.by number items.now }
{
    items.first().is_some_and(|item| item.number() == number)
}
