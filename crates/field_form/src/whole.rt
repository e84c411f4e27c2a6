//! All of some bytes as one value.

ghost use Rattle.std.specs.Prelude.{IfOk, Ok};
ghost use Rattle.field_form.specs.Reading.{Gives};
ghost use Rattle.field_form.specs.Forms.{Spells, whole_of};

use crate::{Field, FormRefusal};
use byte_form::Memory;
use model_text::{Bytes, Sequence};
use std::alloc::Global;

/// The value that the bytes, all of them, spell. `Fault` tells the first place where the form breaks; where bytes are
/// left over this is the place behind the value. `Memory` where there is none.
pub fn read_whole<T: Field + Drop>(alloc: Global, bytes: &[u8]) -> Result<T, FormRefusal>
    // What is read is spelled so.
    ensures found { IfOk result (λ value. Spells T.form value bytes.now) }
    // What is spelled so is read, unless there is no memory.
    ensures again { (value : T) → Spells T.form value bytes.now → Gives result (Ok value) }
    // Where the form breaks first.
    ensures place { Gives result (whole_of T.form bytes.now) }
    // What was read can be written.
    ensures needed { IfOk result (λ value. T.form.Needs value) }
{
    read_to_end(alloc, bytes)
}

fn read_to_end<T: Field + Drop>(alloc: Global, bytes: &[u8]) -> Result<T, FormRefusal>
    ensures { Gives result (whole_of T.form bytes.now) }
{
    let (value, at) = T::read(alloc, bytes, 0)?;
    if at != bytes.len() as u64 {
        return Err(FormRefusal::Fault { at });
    }
    Ok(value)
}

/// The spelling of the value. `Memory` where there is none.
pub fn write_whole<T: Field>(alloc: Global, value: &T) -> Result<Bytes, Memory>
    requires { T.form.Needs value.now }
    ensures { IfOk result (λ bytes. Spells T.form value.now bytes) }
{
    let mut out = Vec::new(alloc);
    value.spell(&mut out)?;
    Ok(Sequence::from_vec(out))
}
