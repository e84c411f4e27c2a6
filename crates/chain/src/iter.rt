ghost use Rattle.std.specs.Prelude.{◌≡◌};
ghost use Rattle.std.specs.Iterator.{YieldsFirstRef, item_count};

use crate::Chain;

/// The elements of a chain, the first in front.
#[derive(Drop)]
pub struct Iter<'a, T> {
    pub(crate) rest: &'a Chain<T>,
}

impl<'a, T> Iterator for Iter<'a, T> {
    type Item = &'a T;

    ghost next_gives = { YieldsFirstRef (λ iter. iter.rest.now) };

    ghost remaining = { item_count (λ iter. iter.rest.now) };

    fn next(&mut self) -> Option<&'a T> {
        let (first, behind) = self.rest.split()?;
        self.rest = behind;
        Some(first)
    }
}

impl<'a, T> IntoIterator for &'a Chain<T> {
    type Item = &'a T;

    type IntoIter = Iter<'a, T>;

    ghost into_iter_gives = { λ chain iter. iter.rest.now ≡ chain.now };

    fn into_iter(self) -> Iter<'a, T> {
        self.iter()
    }
}
