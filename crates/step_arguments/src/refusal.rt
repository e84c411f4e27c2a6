//! Why a call binds no arguments.

ghost use Rattle.std.specs.Prelude.{◌≡◌};
ghost use Rattle.step_arguments.specs.declared.refusal.BindRefusal.TheVariants.{Memory};

use model_text::Text;
use model_values::LimitKind;
use std::alloc::AllocError;

/// Why a call binds no arguments.
#[derive(Drop)]
pub enum BindRefusal {
    /// The memory was refused.
    Memory,
    /// The call has a fault: the message of the exception that it throws.
    Fault(Text),
    /// The text of an argument meets this limit, which ends the build.
    Limit(LimitKind),
}

impl From<AllocError> for BindRefusal {
    ghost from_gives = { λ _ refusal. refusal ≡ Memory };

    fn from(_error: AllocError) -> BindRefusal {
        BindRefusal::Memory
    }
}
