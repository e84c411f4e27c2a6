//! Which cells are new or were written since the last mark.

ghost use Rattle.std.specs.Prelude.{◌≡◌, ◌-◌, ◌<◌, ◌^◌, true, false, [], ◌∷◌, ◌++◌, length, max, replicate, slice_set, IfOk, OnOk, OnErr};
ghost use Rattle.cell_heap.specs.Marks.{places};

use model_text::Ids;
use std::alloc::{AllocError, Global};
use std::marker::Model;

/// A truth value for each cell, and the numbers of those where it is true, in the order in which they became so.
///
/// A contract sees the truth values, and how many more can be put behind without memory. To make one true takes none.
#[derive(Drop)]
pub(crate) struct Changes {
    is_changed: Vec<bool>,
    numbers: Vec<u32>,
    unused: u32,
}

impl Model for Changes {
    ghost use Rattle.cell_heap.specs.Marks.{Marks};

    ghost Value = { Marks };

    ghost use Rattle.cell_heap.specs.ChangesKept.{IsKept};

    ghost view = { λ c. record { flags = c.is_changed.items; spare = c.unused } };

    ghost invariant = { IsKept };
}

impl Changes {
    ghost use Rattle.cell_heap.specs.Marks.{Marks};

    /// None. It takes no memory.
    pub(crate) fn new(alloc: Global) -> Changes
        ensures { result ≡ record { flags = []; spare = 0 } }
    {
        Changes {
            is_changed: Vec::new(alloc),
            numbers: Vec::new(alloc),
            unused: 0,
        }
    }

    /// So many, of which none is changed.
    pub(crate) fn unchanged(alloc: Global, count: usize) -> Result<Changes, AllocError>
        requires { count < 2 ^ 32 }
        ensures { IfOk result (λ changes. changes ≡ record { flags = replicate count false; spare = 0 }) }
    {
        let is_changed = Vec::from_elem(alloc, false, count)?;
        let numbers = Vec::with_capacity(alloc, count)?;
        Ok(Changes {
            is_changed,
            numbers,
            unused: 0,
        })
    }

    /// Makes room for so many more.
    pub(crate) fn reserve(&mut self, more: u32) -> Result<(), AllocError>
        ensures ok { OnOk result (self.new ≡ record self.old { spare = max self.old.spare more }) }
        ensures err { OnErr result (self.new ≡ self.old) }
        ensures full { OnErr result (self.old.spare < more) }
    {
        if more <= self.unused {
            return Ok(());
        }
        let listed = self.numbers.len();
        self.is_changed.reserve(more as usize)?;
        self.numbers
            .reserve(self.is_changed.len() - listed + more as usize)?;
        self.unused = more;
        Ok(())
    }

    /// One more, which is changed. It takes no memory.
    pub(crate) fn push(&mut self)
        requires room { 0 < self.old.spare }
        requires few { length self.old.flags < 2 ^ 32 - 1 }
        ensures { self.new ≡ record { flags = self.old.flags ++ true ∷ []; spare = self.old.spare - 1 } }
    {
        self.numbers.push_reserved(self.is_changed.len() as u32);
        self.is_changed.push_reserved(true);
        self.unused -= 1;
    }

    /// The one at this place is changed. It takes no memory.
    pub(crate) fn set(&mut self, at: u32)
        requires { at < length self.old.flags }
        ensures { self.new ≡ record self.old { flags = slice_set self.old.flags at true } }
    {
        if !self.is_changed[at as usize] {
            self.numbers.push_reserved(at);
            self.is_changed[at as usize] = true;
        }
    }

    /// None is changed from now on. It takes no memory, and as long as there are changed ones.
    pub(crate) fn clear(&mut self)
        ensures { self.new ≡ record self.old { flags = replicate (length self.old.flags) false } }
    {
        while let Some(at) = self.numbers.pop() {
            self.is_changed[at as usize] = false;
        }
    }

    /// The places of the changed ones, rising. It takes the time of a sort of them.
    pub(crate) fn numbers(&self) -> Result<Ids, AllocError>
        ensures { IfOk result (λ ids. ids ≡ places self.now.flags) }
    {
        let mut numbers = Vec::from_slice(*self.numbers.allocator(), self.numbers.as_slice())?;
        numbers.sort_unstable();
        Ok(Ids::from_vec(numbers))
    }
}
