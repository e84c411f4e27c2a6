ghost use Rattle.std.specs.Cmp.Lexicographic.{pointwise, lists_per, lists_equiv};
ghost use Rattle.std.specs.Prelude.{◌≡◌, ◌↔◌, [], ◌∷◌, length, slice_get, IsTrue, IfOk, MatchOption};
ghost use Rattle.std.specs.Option.{option_copied};

use crate::Iter;
use std::alloc::{AllocError, Global};
use std::fmt;
use std::marker::Model;
use std::sync::Arc;

/// Elements in order, the first in front. A contract sees the list of them.
#[cycle(chain)]
pub struct Chain<T> {
    alloc: Global,
    len: usize,
    first: Option<Arc<Node<T>>>,
}

#[cycle(chain)]
#[derive(Drop)]
struct Node<T> {
    item: T,
    behind: Chain<T>,
}

impl<T> Model for Chain<T> {
    ghost use Rattle.std.specs.Prelude.{◌≡◌, List, length};
    ghost use Rattle.std.specs.Coded.{coded_list};

    ghost Value = { List T };

    ghost coded = { coded_list T.code };

    ghost use Rattle.chain.specs.Links.{items};

    ghost view = { λ chain. items chain.first };

    ghost invariant = { λ chain. chain.len ≡ length (items chain.first) };

    ghost size = { length };

    ghost use Rattle.std.proofs.Common.{arith};

    ghost size_decreases = { λ chain h. Prim.grind arith };
}

impl<T> Chain<T> {
    /// No elements. It takes no memory.
    pub fn new(alloc: Global) -> Chain<T>
        ensures { result ≡ [] }
    {
        Chain {
            alloc,
            len: 0,
            first: None,
        }
    }

    /// How many elements it has. It is known, not counted.
    pub fn len(&self) -> usize
        ensures { result ≡ length self.now }
    {
        self.len
    }

    /// Whether it has no elements.
    pub fn is_empty(&self) -> bool
        ensures { IsTrue result ↔ (self.now ≡ []) }
    {
        self.first.is_none()
    }

    /// The first element and the chain behind it, and `None` exactly where there is none.
    pub fn split(&self) -> Option<(&T, &Chain<T>)>
        ensures { MatchOption result (self.now ≡ []) (λ parts. self.now ≡ parts.0.now ∷ parts.1.now) }
    {
        let node = self.first.as_ref()?;
        Some((&node.item, &node.behind))
    }

    /// The element at this place, counted from 0 in front, and `None` exactly at its length and behind. It goes over
    /// all elements in front of the place.
    pub fn nth(&self, at: usize) -> Option<&T>
        ensures { option_copied result ≡ slice_get self.now at }
    {
        let mut chain = self;
        let mut left = at;
        while let Some(node) = &chain.first {
            if left == 0 {
                return Some(&node.item);
            }
            left -= 1;
            chain = &node.behind;
        }
        None
    }

    /// Its elements, the first in front.
    pub fn iter(&self) -> Iter<'_, T>
        ensures { result.rest.now ≡ self.now }
    {
        Iter { rest: self }
    }
}

impl<T: Drop> Chain<T> {
    /// The chain with one more element in front: one allocation. `AllocError` where the memory was refused, and where
    /// 2^64 - 1 elements, for which no memory has room, stand already: then chain and element are dropped.
    pub fn with(self, item: T) -> Result<Chain<T>, AllocError>
        ensures { IfOk result (λ chain. chain ≡ item ∷ self) }
    {
        let alloc = self.alloc;
        let len = self.len.checked_add(1).ok_or(AllocError)?;
        let first = Arc::new(alloc, Node { item, behind: self })?;
        Ok(Chain {
            alloc,
            len,
            first: Some(first),
        })
    }

    /// These elements in the same order: one allocation for each. `AllocError` where the memory was refused.
    pub fn from_vec(mut items: Vec<T>) -> Result<Chain<T>, AllocError>
        ensures { IfOk result (λ chain. chain ≡ items.items) }
    {
        let mut chain = Chain::new(*items.allocator());
        while let Some(last) = items.pop() {
            chain = chain.with(last)?;
        }
        Ok(chain)
    }
}

impl<T: Drop> Drop for Chain<T> {
    // A loop, so that a long chain does not run out of stack. A node that another chain has too stays.
    fn drop(mut self) {
        loop {
            let Chain {
                alloc: _,
                len: _,
                first,
            } = self;
            match first {
                None => return,
                Some(node) => match Arc::into_inner(node) {
                    Some(Node { behind, .. }) => self = behind,
                    None => return,
                },
            }
        }
    }
}

impl<T: Drop> Clone for Chain<T> {
    ghost use Rattle.std.specs.Prelude.{◌≡◌};

    ghost is_clone = { λ chain copy. copy ≡ chain };

    // It takes no memory. `AllocError` only where 2^63 copies stand already.
    fn clone(&self) -> Result<Chain<T>, AllocError> {
        match &self.first {
            None => Ok(Chain::new(self.alloc)),
            Some(node) => Ok(Chain {
                alloc: self.alloc,
                len: self.len,
                first: Some(Arc::try_clone(node)?),
            }),
        }
    }
}

impl<T: PartialEq> PartialEq for Chain<T> {
    ghost eq = { pointwise T.eq };

    ghost laws = { lists_per T.PartialEq.laws };

    fn eq(&self, other: &Chain<T>) -> bool {
        let mut left = self;
        let mut right = other;
        while let (Some(a), Some(b)) = (&left.first, &right.first) {
            if a.item != b.item {
                return false;
            }
            left = &a.behind;
            right = &b.behind;
        }
        left.is_empty() && right.is_empty()
    }
}

impl<T: Eq> Eq for Chain<T> {
    ghost laws = { lists_equiv T.Eq.laws };
}

impl<T: fmt::Debug> fmt::Debug for Chain<T> {
    // As a slice of the elements prints.
    fn fmt<W: fmt::Write>(&self, f: &mut fmt::Formatter<W>) -> fmt::Result {
        f.debug_list().entries(self.iter()).finish()
    }
}
