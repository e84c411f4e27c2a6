ghost use Rattle.std.specs.Prelude.{◌≡◌, [], ◌∷◌, MatchOption, OnOk};

use std::alloc::{AllocError, Global};
use std::marker::Model;

/// A stack. A contract sees the list of its elements, the last that was put on it first.
#[derive(Drop)]
pub struct Stack<T> {
    items: Vec<T>,
}

impl<T> Model for Stack<T> {
    ghost use Rattle.std.specs.Prelude.{List, reverse};
    ghost use Rattle.std.specs.Coded.{coded_list};

    ghost Value = { List T };

    ghost coded = { coded_list T.code };

    ghost view = { λ stack. reverse stack.items.items };
}

impl<T: Drop> Stack<T> {
    /// No elements. It takes no memory.
    pub fn new(alloc: Global) -> Stack<T>
        ensures { result ≡ [] }
    {
        Stack {
            items: Vec::new(alloc),
        }
    }

    /// Puts an element on the stack, or `AllocError` where the memory was refused.
    pub fn push(&mut self, item: T) -> Result<(), AllocError>
        ensures { OnOk result (self.new ≡ item ∷ self.old) }
    {
        self.items.push(item)?;
        Ok(())
    }

    /// Takes the last element that was put on the stack, and `None` exactly where there is none.
    pub fn pop(&mut self) -> Option<T>
        ensures { MatchOption result ((self.old ≡ []) × (self.new ≡ [])) (λ item. self.old ≡ item ∷ self.new) }
    {
        self.items.pop()
    }
}
