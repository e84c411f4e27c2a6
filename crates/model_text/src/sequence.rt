ghost use Rattle.std.specs.List.{AllZip};
ghost use Rattle.std.specs.Cmp.Lexicographic.{pointwise, lists_per, lists_equiv};
ghost use Rattle.std.specs.Prelude.{◌≡◌, [], ◌∷◌, ◌++◌, ◌<◌, ◌↔◌, length, slice_get, slice_set, IsTrue, IfOk, MatchOption, OnOk, OnErr, OnSome};
ghost use Rattle.std.specs.Option.{option_copied};

use crate::{Pair, Text};
use std::alloc::{AllocError, Global};
use std::marker::Model;

/// Bytes as they come from a file, a process or a person.
pub type Bytes = Sequence<u8>;

/// Numbers that name things: flow nodes, requests, cells.
pub type Ids = Sequence<u32>;

/// A list of texts.
pub type Texts = Sequence<Text>;

/// A list of pairs of texts, such as the variables of an environment.
pub type Pairs = Sequence<Pair>;

/// Elements in order. A contract sees the list of them.
#[derive(Debug, Drop)]
pub struct Sequence<T> {
    items: Vec<T>,
}

impl<T> Model for Sequence<T> {
    ghost use Rattle.std.specs.Prelude.{List};
    ghost use Rattle.std.specs.Coded.{coded_list};

    ghost Value = { List T };

    ghost coded = { coded_list T.code };

    ghost view = { λ sequence. sequence.items.items };
}

impl<T> Sequence<T> {
    /// No elements. It takes no memory.
    pub fn new(alloc: Global) -> Sequence<T>
        ensures { result ≡ [] }
    {
        Sequence {
            items: Vec::new(alloc),
        }
    }

    /// These elements. It takes no memory.
    pub fn from_vec(items: Vec<T>) -> Sequence<T>
        ensures { result ≡ items.items }
    {
        Sequence { items }
    }

    /// Its elements as a `Vec`. It takes no memory.
    pub fn into_vec(self) -> Vec<T>
        ensures { result.items ≡ self }
    {
        let Sequence { items } = self;
        items
    }

    /// Its elements.
    pub fn as_slice(&self) -> &[T]
        ensures { result.now ≡ self.now }
    {
        self.items.as_slice()
    }

    /// How many elements it has.
    pub fn len(&self) -> usize
        ensures { result ≡ length self.now }
    {
        self.items.len()
    }

    /// Whether it has no elements.
    pub fn is_empty(&self) -> bool
        ensures { IsTrue result ↔ (self.now ≡ []) }
    {
        self.items.is_empty()
    }

    /// The element at this place, counted from 0, and `None` exactly at its length and behind.
    pub fn get(&self, at: usize) -> Option<&T>
        ensures value { option_copied result ≡ slice_get self.now at }
        ensures within { OnSome result (at < length self.now) }
    {
        self.items.get(at)
    }

    /// Takes the last element out, and `None` exactly where there is none. It takes no memory.
    pub fn pop(&mut self) -> Option<T>
        ensures { MatchOption result ((self.old ≡ []) × (self.new ≡ [])) (λ last. self.old ≡ self.new ++ last ∷ []) }
    {
        self.items.pop()
    }
}

impl<T: Drop> Sequence<T> {
    /// Puts an element behind. `AllocError` where the memory was refused: then the list is as before, and the
    /// element is dropped.
    pub fn push(&mut self, item: T) -> Result<(), AllocError>
        ensures pushed { OnOk result (self.new ≡ self.old ++ item ∷ []) }
        ensures unchanged { OnErr result (self.new ≡ self.old) }
    {
        self.items.push(item)?;
        Ok(())
    }

    /// Puts an element in the place of the one at `at`. It takes no memory.
    pub fn set(&mut self, at: usize, item: T)
        requires { at < length self.old }
        ensures { self.new ≡ slice_set self.old at item }
    {
        self.items[at] = item;
    }
}

impl<T: Copy> Sequence<T> {
    /// A copy of these elements, or `AllocError` where the memory was refused.
    pub fn from_slice(alloc: Global, items: &[T]) -> Result<Sequence<T>, AllocError>
        ensures { IfOk result (λ copy. copy ≡ items.now) }
    {
        let items = Vec::from_slice(alloc, items)?;
        Ok(Sequence { items })
    }
}

impl<T: Clone> Clone for Sequence<T> {
    ghost is_clone = { AllZip T.is_clone };

    fn clone(&self) -> Result<Sequence<T>, AllocError> {
        let items = self.items.clone()?;
        Ok(Sequence { items })
    }
}

impl<T: PartialEq> PartialEq for Sequence<T> {
    ghost eq = { pointwise T.eq };

    ghost laws = { lists_per T.PartialEq.laws };

    fn eq(&self, other: &Sequence<T>) -> bool {
        self.items == other.items
    }
}

impl<T: Eq> Eq for Sequence<T> {
    ghost laws = { lists_equiv T.Eq.laws };
}
