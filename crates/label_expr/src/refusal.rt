use std::alloc::AllocError;

/// Why a text is no label expression.
#[derive(Clone, Copy, PartialEq, Eq, Debug)]
pub enum LabelRefusal {
    /// The memory was refused.
    Memory,
    /// The place of its first bad token, in bytes from 0. It is the text's length where something more would have to
    /// follow.
    Fault { at: u64 },
}

impl From<AllocError> for LabelRefusal {
    ghost use Rattle.std.specs.Prelude.{◌≡◌};
    ghost use Rattle.label_expr.specs.declared.refusal.LabelRefusal.TheVariants.{Memory};

    ghost from_gives = { λ _ e. e ≡ Memory };

    fn from(_: AllocError) -> LabelRefusal {
        LabelRefusal::Memory
    }
}
