//! What can be written and read.

ghost use Rattle.std.specs.Prelude.{OnOk, List};
ghost use Rattle.field_form.specs.Reading.{Gives};
ghost use Rattle.byte_form.specs.Fields.{IsApart};
ghost use Rattle.field_form.specs.Forms.{Form, Lawful, Written};

use crate::FormRefusal;
use byte_form::Memory;
use std::alloc::Global;

/// A type with a form of stored bytes.
pub trait Field: Sized {
    ghost form: { Form Self };

    /// Writes the value behind `out`. `Memory` where there is none: then `out` may end with a part of the value.
    fn spell(&self, out: &mut Vec<u8>) -> Result<(), Memory>
        requires { form.Needs self.now }
        ensures { OnOk result (Written form self.now out.old.items out.new.items) };

    /// Reads the value at this place, and answers it with the place behind it. `Fault` tells the first place where
    /// the form breaks, `Memory` that there was none.
    fn read(alloc: Global, bytes: &[u8], at: u64) -> Result<(Self, u64), FormRefusal>
        ensures { Gives result (form.reading bytes.now at) };

    ghost lawful: { Lawful form };
}

/// No spelling of a value is the beginning of another of its type, and different values have different spellings.
pub fn spellings_are_apart<T: Field>()
    ensures { IsApart T.form.Fits T.form.spelling }
{}
