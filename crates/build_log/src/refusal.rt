//! Why a log refuses a line or a piece, and the number at which it does.

ghost use Rattle.std.specs.Prelude.{◌≡◌};
ghost use Rattle.build_log.specs.declared.refusal.LogRefusal.TheVariants.{Memory};

use std::alloc::AllocError;

/// The most bytes of a log.
pub(crate) const MAX_BYTES: usize = 16777216;

/// Why nothing was put to a log, which is as it was.
#[derive(Clone, Copy, Debug, PartialEq, Eq)]
pub enum LogRefusal {
    /// The memory was refused. It is told only where the limit would not be passed.
    Memory,
    /// The log would have more than 16,777,216 bytes. It is told whether there is memory or not.
    LogLimit,
}

impl From<AllocError> for LogRefusal {
    ghost from_gives = { λ _ refusal. refusal ≡ Memory };

    fn from(_error: AllocError) -> LogRefusal {
        LogRefusal::Memory
    }
}
