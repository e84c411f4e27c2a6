//! Why a field was not written or read.

ghost use Rattle.std.specs.Prelude.{◌≡◌};
ghost use Rattle.byte_form.specs.declared.fault.Memory.{Memory};

use std::alloc::AllocError;

/// There was no memory for the field.
#[derive(Clone, Copy, Debug, PartialEq, Eq)]
pub struct Memory;

impl From<AllocError> for Memory {
    fn from(_error: AllocError) -> Memory {
        Memory
    }
}

/// Too few bytes are left for the field that begins here.
#[derive(Clone, Copy, Debug, PartialEq, Eq)]
pub struct FormFault {
    /// The place at which the field was to be read.
    pub at: u64,
}
