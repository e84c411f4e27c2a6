//! Items of lists that rise by numbers.

ghost use Rattle.std.specs.Prelude.{◌≡◌, ℕ};
ghost use Rattle.field_form.specs.Reading.{Gives};
ghost use Rattle.delta_form.specs.Numbers.{rising_number, written_number};

use crate::{NumberedCell, WrittenRequest, WrittenThread};
use byte_form::take_u32;
use field_form::FormRefusal;
use image_form::ImageThread;
use model_run::OpenRequest;

/// What has a number by which its list rises.
pub(crate) trait Numbered {
    ghost by: { Self → ℕ };

    /// The number.
    fn number(&self) -> u32
        ensures { result ≡ by self.now };
}

impl Numbered for u32 {
    ghost by = { λ n. n };

    fn number(&self) -> u32 {
        *self
    }
}

impl Numbered for NumberedCell {
    ghost by = { λ c. c.number };

    fn number(&self) -> u32 {
        self.number
    }
}

impl Numbered for WrittenRequest {
    ghost by = { written_number };

    fn number(&self) -> u32 {
        match self {
            WrittenRequest::Whole(open) => open.number,
            WrittenRequest::Grown { number, .. } => *number,
        }
    }
}

impl Numbered for WrittenThread {
    ghost by = { λ t. t.number };

    fn number(&self) -> u32 {
        self.number
    }
}

impl Numbered for OpenRequest {
    ghost by = { λ r. r.number };

    fn number(&self) -> u32 {
        self.number
    }
}

impl Numbered for ImageThread {
    ghost by = { λ t. t.number };

    fn number(&self) -> u32 {
        self.number
    }
}

/// Reads the number of the item behind these. One that does not rise is a fault at its place.
pub(crate) fn take_number<T: Numbered>(
    before: &[T],
    bytes: &[u8],
    at: u64,
) -> Result<(u32, u64), FormRefusal>
    ensures { Gives result ((rising_number T.by before.now).reading bytes.now at) }
{
    let (number, behind) = take_u32(bytes, at)?;
    if before.last().is_some_and(|last| last.number() >= number) {
        return Err(FormRefusal::Fault { at });
    }
    Ok((number, behind))
}
