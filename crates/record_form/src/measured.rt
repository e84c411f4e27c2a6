//! Types whose spellings have a length that is told without spelling them.

ghost use Rattle.std.specs.Prelude.{◌≡◌};
ghost use Rattle.record_form.specs.Sizes.{size_in};

use field_form::Field;
use model_text::{Bytes, Text};

/// A type with a form of stored bytes, of which each value tells how many bytes its spelling has.
pub trait Measured: Field {
    /// How many bytes the spelling has, or `u64::MAX` where it has more. It takes no memory.
    fn size(&self) -> u64
        ensures { result ≡ size_in Self.form self.now };
}

impl Measured for u32 {
    fn size(&self) -> u64 {
        4
    }
}

impl Measured for u64 {
    fn size(&self) -> u64 {
        8
    }
}

impl Measured for i32 {
    fn size(&self) -> u64 {
        4
    }
}

impl Measured for bool {
    fn size(&self) -> u64 {
        1
    }
}

impl Measured for Text {
    fn size(&self) -> u64 {
        (self.len() as u64).saturating_add(4)
    }
}

impl Measured for Bytes {
    fn size(&self) -> u64 {
        (self.len() as u64).saturating_add(4)
    }
}

impl<T: Measured + Drop> Measured for Option<T> {
    fn size(&self) -> u64 {
        match self {
            None => 1,
            Some(item) => item.size().saturating_add(1),
        }
    }
}
