//! Texts and bytes: their number of bytes as a `u32`, and then the bytes.

ghost use Rattle.field_form.specs.Forms.{bytes_form};
ghost use Rattle.field_form.specs.FieldLaws.{bytes_lawful};

use crate::{Field, FormRefusal};
use byte_form::{Memory, put_bytes, take_bytes};
use model_text::{Bytes, Sequence, Text};
use std::alloc::Global;

impl Field for Text {
    ghost form = { bytes_form };

    ghost lawful = { bytes_lawful };

    fn spell(&self, out: &mut Vec<u8>) -> Result<(), Memory> {
        put_bytes(out, self.as_slice())
    }

    fn read(alloc: Global, bytes: &[u8], at: u64) -> Result<(Text, u64), FormRefusal> {
        let (text, behind) = take_bytes(bytes, at)?;
        Ok((Text::from_slice(alloc, text)?, behind))
    }
}

impl Field for Bytes {
    ghost form = { bytes_form };

    ghost lawful = { bytes_lawful };

    fn spell(&self, out: &mut Vec<u8>) -> Result<(), Memory> {
        put_bytes(out, self.as_slice())
    }

    fn read(alloc: Global, bytes: &[u8], at: u64) -> Result<(Bytes, u64), FormRefusal> {
        let (got, behind) = take_bytes(bytes, at)?;
        Ok((Sequence::from_slice(alloc, got)?, behind))
    }
}
