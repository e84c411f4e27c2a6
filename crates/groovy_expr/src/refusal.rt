use std::alloc::{AllocError, AllocFailed};

/// Why a rule of the grammar was not read: memory was refused, or the token at this place, counted from 0, is the first
/// with which the rule does not go on. The place behind the last token stands for the end.
#[derive(Clone, Copy, PartialEq, Eq, Debug)]
pub enum Refusal {
    Memory,
    Fault(usize),
}

impl From<AllocError> for Refusal {
    ghost use Rattle.std.specs.Prelude.{◌≡◌};
    ghost use Rattle.groovy_expr.specs.declared.refusal.Refusal.{Refusal};

    ghost from_gives = { λ _ e. e ≡ Refusal.Memory };

    fn from(_: AllocError) -> Refusal {
        Refusal::Memory
    }
}

impl<T: Drop> From<AllocFailed<T>> for Refusal {
    ghost use Rattle.std.specs.Prelude.{◌≡◌};
    ghost use Rattle.groovy_expr.specs.declared.refusal.Refusal.{Refusal};

    ghost from_gives = { λ _ e. e ≡ Refusal.Memory };

    fn from(_: AllocFailed<T>) -> Refusal {
        Refusal::Memory
    }
}
