//! Why an operation on values gives no value.

ghost use Rattle.std.specs.Prelude.{◌≡◌};
ghost use Rattle.value_view.specs.Refusals.{refusal_of};
ghost use Rattle.value_view.specs.declared.refusal.OpRefusal.TheVariants.{Limit, Memory};

use cell_heap::CellRefusal;
use model_values::LimitKind;
use std::alloc::AllocError;

/// Why an operation on values gives no value.
#[derive(Clone, Copy, Debug, PartialEq, Eq)]
pub enum OpRefusal {
    /// The memory was refused.
    Memory,
    /// The throwable in this cell was thrown, which is new but for a `throw` of one.
    Thrown(u32),
    /// A limit was met, which ends the build. Every cell is as it was.
    Limit(LimitKind),
}

impl From<AllocError> for OpRefusal {
    ghost from_gives = { λ _ refusal. refusal ≡ Memory };

    fn from(_error: AllocError) -> OpRefusal {
        OpRefusal::Memory
    }
}

impl From<CellRefusal> for OpRefusal {
    ghost from_gives = { λ cell refusal. refusal ≡ refusal_of cell };

    fn from(refusal: CellRefusal) -> OpRefusal {
        match refusal {
            CellRefusal::Memory => OpRefusal::Memory,
            CellRefusal::Cells => OpRefusal::Limit(LimitKind::Cells),
            CellRefusal::Bytes => OpRefusal::Limit(LimitKind::HeapBytes),
            CellRefusal::Entries => OpRefusal::Limit(LimitKind::CollectionSize),
        }
    }
}

impl From<LimitKind> for OpRefusal {
    ghost from_gives = { λ limit refusal. refusal ≡ Limit limit };

    fn from(limit: LimitKind) -> OpRefusal {
        OpRefusal::Limit(limit)
    }
}
