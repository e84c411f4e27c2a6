//! One of a few values, by its number in one byte.

ghost use Rattle.field_form.specs.Reading.{Gives};
ghost use Rattle.field_form.specs.Forms.{numbered};

use crate::FormRefusal;
use byte_form::take_u8;

/// Reads one of these values, each of which has its place as its number. A byte that is the number of none is a fault
/// at its place, and so is a byte that is not there.
pub fn take_one_of<T: Copy>(bytes: &[u8], at: u64, all: &[T]) -> Result<(T, u64), FormRefusal>
    ensures { Gives result ((numbered (λ v. 0) all.now).reading bytes.now at) }
{
    let (number, behind) = take_u8(bytes, at)?;
    match all.get(number as usize) {
        None => Err(FormRefusal::Fault { at }),
        Some(value) => Ok((*value, behind)),
    }
}
