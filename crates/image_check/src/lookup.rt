//! Items that are found by their numbers.

ghost use Rattle.std.specs.Prelude.{◌≡◌, ℕ, map, true};
ghost use Rattle.std.specs.Option.{option_copied, option_map};
ghost use Rattle.model_run.specs.Fitting.{Rises};
ghost use Rattle.image_check.specs.Requests.{numbered, numbers_rise};
ghost use Rattle.image_check.specs.Scans.{is_higher};

use image_form::ImageThread;
use model_run::{Held, OpenRequest};

/// What has a number.
pub(crate) trait HasNumber {
    ghost number: { Self → ℕ };

    fn number(&self) -> u32
        ensures { result ≡ number self.now };
}

impl HasNumber for OpenRequest {
    ghost number = { λ r. r.number };

    fn number(&self) -> u32 {
        self.number
    }
}

impl HasNumber for Held {
    ghost number = { λ x. x.executor };

    fn number(&self) -> u32 {
        self.executor
    }
}

impl HasNumber for ImageThread {
    ghost number = { λ t. t.number };

    fn number(&self) -> u32 {
        self.number
    }
}

/// Whether each number is above the one before it.
pub(crate) fn numbers_rise<T: HasNumber>(items: &[T]) -> bool
    ensures { result ≡ numbers_rise T.number items.now }
{
    let mut before = None;
    for item in items {
        let number = item.number();
        if !is_higher(before, number) {
            return false;
        }
        before = Some(number);
    }
    true
}

/// The number of an item, where there is one.
pub(crate) fn number_of<T: HasNumber>(item: Option<&T>) -> Option<u32>
    ensures { result ≡ option_map T.number (option_copied item.entry) }
{
    match item {
        None => None,
        Some(item) => Some(item.number()),
    }
}

/// Whether a number is above the one before it.
pub(crate) fn is_higher(before: Option<u32>, number: u32) -> bool
    ensures { result ≡ is_higher before number }
{
    match before {
        None => true,
        Some(before) => before < number,
    }
}

/// The first item with a number. Where the numbers rise it looks at as many items as the length has binary digits.
pub(crate) fn numbered<'a, T: HasNumber>(items: &'a [T], rise: bool, number: u32) -> Option<&'a T>
    requires { rise ≡ true → Rises (map T.number items.now) }
    ensures { option_copied result ≡ numbered T.number number items.now }
{
    if rise {
        numbered_by_halves(items, number)
    } else {
        items.iter().find(|item| item.number() == number)
    }
}

/// The item with a number, of items whose numbers rise.
fn numbered_by_halves<'a, T: HasNumber>(items: &'a [T], number: u32) -> Option<&'a T>
    requires { Rises (map T.number items.now) }
    ensures { option_copied result ≡ numbered T.number number items.now }
{
    let mut rest = items;
    while rest.len() > 1 {
        let (front, behind) = rest.split_at(rest.len() / 2);
        rest = if behind[0].number() <= number {
            behind
        } else {
            front
        };
    }
    match rest {
        [item, ..] if item.number() == number => Some(item),
        _ => None,
    }
}
