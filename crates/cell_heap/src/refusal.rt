//! Why a heap refuses a call, and the numbers at which it does.

ghost use Rattle.std.specs.Prelude.{◌≡◌};
ghost use Rattle.cell_heap.specs.declared.refusal.CellRefusal.TheVariants.{Memory};

use std::alloc::AllocError;

/// The most cells of a build.
pub(crate) const MAX_CELLS: usize = 1048576;

/// The most heap bytes of a build.
pub(crate) const MAX_BYTES: u64 = 268435456;

/// The most entries of a list or a map.
pub(crate) const MAX_ENTRIES: usize = 65536;

/// Why a cell was not made or did not grow. Nothing has changed then.
#[derive(Clone, Copy, Debug, PartialEq, Eq)]
pub enum CellRefusal {
    /// The memory was refused. It is told only where no limit would be passed.
    Memory,
    /// There would be more than 1,048,576 cells.
    Cells,
    /// The cells would have more than 268,435,456 heap bytes. It is told only where the two other limits hold.
    Bytes,
    /// A list or a map would have more than 65,536 entries. It is told also where another limit would be passed.
    Entries,
}

impl From<AllocError> for CellRefusal {
    ghost from_gives = { λ _ refusal. refusal ≡ Memory };

    fn from(_error: AllocError) -> CellRefusal {
        CellRefusal::Memory
    }
}
