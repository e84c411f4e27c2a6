//! Why an image gives no build.

ghost use Rattle.std.specs.Prelude.{◌≡◌};
ghost use Rattle.build_images.specs.declared.refusal.RestoreRefusal.TheVariants.{Memory};

use std::alloc::AllocError;

/// Why an image gives no build.
#[derive(Clone, Copy, Debug, PartialEq, Eq)]
pub enum RestoreRefusal {
    /// The memory was refused; or a thread has more than 4,294,967,295 calls open, or waits for more branches.
    Memory,
    /// The image is of a build that has ended, and yet has threads, open requests or held executors. No build has such an
    /// image.
    Remains,
}

impl From<AllocError> for RestoreRefusal {
    ghost from_gives = { λ _ refusal. refusal ≡ Memory };

    fn from(_error: AllocError) -> RestoreRefusal {
        RestoreRefusal::Memory
    }
}
