//! Why a delta was not applied.

ghost use Rattle.std.specs.Prelude.{◌≡◌};
ghost use Rattle.delta_form.specs.declared.refusal.DeltaRefusal.TheVariants.{Memory};

use std::alloc::{AllocError, AllocFailed};

/// Why a delta was not applied.
#[derive(Clone, Copy, Debug, PartialEq, Eq, Drop)]
pub enum DeltaRefusal {
    /// The memory was refused. It says nothing of the delta.
    Memory,
    /// The delta does not fit the image.
    Fault,
}

impl From<AllocError> for DeltaRefusal {
    ghost from_gives = { λ _ e. e ≡ Memory };

    fn from(_error: AllocError) -> DeltaRefusal {
        DeltaRefusal::Memory
    }
}

impl<T: Drop> From<AllocFailed<T>> for DeltaRefusal {
    ghost from_gives = { λ _ e. e ≡ Memory };

    fn from(_error: AllocFailed<T>) -> DeltaRefusal {
        DeltaRefusal::Memory
    }
}
