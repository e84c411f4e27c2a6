ghost use Rattle.std.specs.Prelude.{◌≡◌, not, IfOk, OnOk};
ghost use Rattle.std.specs.FinSet as set;

use model_text::Text;
use std::alloc::{AllocError, Global};
use std::collections::BTreeSet;
use std::marker::Model;

/// A set of names. A contract sees the set of their bytes.
///
/// Adding and asking take time in the logarithm of the number of names, whatever the names are.
#[derive(Drop)]
pub struct Names {
    names: BTreeSet<Text>,
}

impl Model for Names {
    ghost use Rattle.std.specs.Ordering.{nat_cmp};
    ghost use Rattle.std.specs.Cmp.Lexicographic.{slice_cmp};
    ghost use Rattle.std.specs.Coded.{coded_ℕ, coded_list};
    ghost use Rattle.std.specs.FinSet as set;

    ghost Value = { set.FinSet (slice_cmp nat_cmp) };

    ghost coded = { set.code (coded_list coded_ℕ) };

    ghost view = { λ names. set.from_list names.names.keys };
}

impl Names {
    /// No names. It takes no memory.
    pub fn new(alloc: Global) -> Names
        ensures { result ≡ set.empty }
    {
        Names {
            names: BTreeSet::new(alloc),
        }
    }

    /// Adds a name, and says whether it was not there before. `AllocError` where the memory was refused.
    pub fn add(&mut self, name: &Text) -> Result<bool, AllocError>
        ensures new { IfOk result (λ is_new. is_new ≡ not (set.contains self.old name.now)) }
        ensures added { OnOk result (self.new ≡ set.insert self.old name.now) }
    {
        let is_new = self.names.insert(name.clone()?)?;
        Ok(is_new)
    }
}
