//! The tail of a list of values, which stands in that list.

ghost use Rattle.std.specs.Prelude.{◌≡◌, ◌≤◌, ◌++◌, ◌∷◌, [], drop, length, IfOk, OnOk};

use model_values::{Value, Values};
use std::alloc::{AllocError, Global};
use std::marker::Model;

/// The values of a list behind its first ones, which stay in front of them, so that none is copied. A contract sees
/// those behind alone.
#[derive(Drop)]
pub struct Tail {
    items: Vec<Value>,
    from: usize,
}

impl Model for Tail {
    ghost use Rattle.std.specs.Prelude.{◌≤◌, List, drop, length};
    ghost use Rattle.model_values.specs.declared.value.Value.{Value as HeldValue};

    ghost Value = { List HeldValue };

    ghost view = { λ tail. drop tail.from tail.items.items };

    ghost invariant = { λ tail. tail.from ≤ length tail.items.items };
}

impl Tail {
    /// No values. It takes no memory.
    pub fn new(alloc: Global) -> Tail
        ensures { result ≡ [] }
    {
        Tail {
            items: Vec::new(alloc),
            from: 0,
        }
    }

    /// The values behind the first `count`. It takes no memory.
    pub fn behind(values: Values, count: usize) -> Tail
        ensures { result ≡ drop count values }
    {
        let items = values.into_vec();
        let from = count.min(items.len());
        Tail { items, from }
    }

    /// Its values.
    pub fn as_slice(&self) -> &[Value]
        ensures { result.now ≡ self.now }
    {
        &self.items[self.from..]
    }

    /// Puts a value behind. `AllocError` where the memory was refused.
    pub fn push(&mut self, value: Value) -> Result<(), AllocError>
        ensures { OnOk result (self.new ≡ self.old ++ value ∷ []) }
    {
        self.items.push(value)?;
        Ok(())
    }

    /// Those behind the first `count` of them. It takes no memory.
    pub fn skip(self, count: usize) -> Tail
        ensures { result ≡ drop count self }
    {
        let Tail { items, from } = self;
        let more = count.min(items.len() - from);
        Tail {
            items,
            from: from + more,
        }
    }

    /// These values, and behind them the tail, in the list in which it stands: it moves there by as many places as
    /// these are more or fewer than what stood in front of it. `AllocError` where the memory was refused.
    pub fn into_values(self, front: Values) -> Result<Values, AllocError>
        ensures { IfOk result (λ values. values ≡ front ++ self) }
    {
        let Tail { mut items, from } = self;
        items.splice(..from, front.into_vec())?;
        Ok(Values::from_vec(items))
    }
}
