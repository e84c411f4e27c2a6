//! Cells and the classes of throwables.

ghost use Rattle.field_form.specs.Cells.{class_form, class_lawful, cell_form, cell_lawful};

use crate::{Field, FormRefusal, take_one_of};
use byte_form::{Memory, put_u8, take_u8};
use model_text::Text;
use model_values::{Cell, Class, Entries, Env, Value, Values};
use std::alloc::Global;

impl Field for Class {
    ghost form = { class_form };

    ghost lawful = { class_lawful };

    fn spell(&self, out: &mut Vec<u8>) -> Result<(), Memory> {
        put_u8(out, *self as u8)
    }

    fn read(_alloc: Global, bytes: &[u8], at: u64) -> Result<(Class, u64), FormRefusal> {
        take_one_of(
            bytes,
            at,
            &[
                Class::Abort,
                Class::FlowInterrupted,
                Class::Arithmetic,
                Class::MissingProperty,
                Class::MissingMethod,
                Class::NullPointer,
                Class::IllegalArgument,
                Class::IndexOutOfBounds,
                Class::NumberFormat,
                Class::NoSuchElement,
                Class::MissingContextVariable,
                Class::Exception,
                Class::RuntimeException,
                Class::NoSuchMethodError,
                Class::Error,
            ],
        )
    }
}

impl Field for Cell {
    ghost form = { cell_form };

    ghost lawful = { cell_lawful };

    fn spell(&self, out: &mut Vec<u8>) -> Result<(), Memory> {
        match self {
            Cell::Variable(value) => {
                put_u8(out, 0)?;
                value.spell(out)
            }
            Cell::Text(text) => {
                put_u8(out, 1)?;
                text.spell(out)
            }
            Cell::List(values) => {
                put_u8(out, 2)?;
                values.spell(out)
            }
            Cell::Map(entries) => {
                put_u8(out, 3)?;
                entries.spell(out)
            }
            Cell::Closure { node, env } => {
                put_u8(out, 4)?;
                node.spell(out)?;
                env.spell(out)
            }
            Cell::Thrown { class, message } => {
                put_u8(out, 5)?;
                class.spell(out)?;
                message.spell(out)
            }
        }
    }

    fn read(alloc: Global, bytes: &[u8], at: u64) -> Result<(Cell, u64), FormRefusal> {
        let (kind, behind) = take_u8(bytes, at)?;
        match kind {
            0 => {
                let (value, behind) = Value::read(alloc, bytes, behind)?;
                Ok((Cell::Variable(value), behind))
            }
            1 => {
                let (text, behind) = Text::read(alloc, bytes, behind)?;
                Ok((Cell::Text(text), behind))
            }
            2 => {
                let (values, behind) = Values::read(alloc, bytes, behind)?;
                Ok((Cell::List(values), behind))
            }
            3 => {
                let (entries, behind) = Entries::read(alloc, bytes, behind)?;
                Ok((Cell::Map(entries), behind))
            }
            4 => {
                let (node, behind) = u32::read(alloc, bytes, behind)?;
                let (env, behind) = Env::read(alloc, bytes, behind)?;
                Ok((Cell::Closure { node, env }, behind))
            }
            5 => {
                let (class, behind) = Class::read(alloc, bytes, behind)?;
                let (message, behind) = Option::<Text>::read(alloc, bytes, behind)?;
                Ok((Cell::Thrown { class, message }, behind))
            }
            _ => Err(FormRefusal::Fault { at }),
        }
    }
}
