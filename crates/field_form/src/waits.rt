//! What threads wait for.

ghost use Rattle.std.specs.Prelude.{OnOk};
ghost use Rattle.field_form.specs.Reading.{Gives};
ghost use Rattle.field_form.specs.Forms.{Written, mark};
ghost use Rattle.field_form.specs.Waits.{end_form, end_lawful, join_form, join_lawful, wait_form, wait_lawful, context_form, context_lawful};

use crate::{Field, FormRefusal};
use byte_form::{Memory, put_u8, take_u8};
use model_run::{Context, Join, JoinEnd, Joins, Wait};
use model_text::{Ids, Pairs, Text, Texts};
use model_values::Outcome;
use std::alloc::Global;

impl Field for Join {
    ghost form = { join_form };

    ghost lawful = { join_lawful };

    fn spell(&self, out: &mut Vec<u8>) -> Result<(), Memory> {
        self.name.spell(out)?;
        self.thread.spell(out)?;
        spell_end(&self.ended, out)
    }

    fn read(alloc: Global, bytes: &[u8], at: u64) -> Result<(Join, u64), FormRefusal> {
        let (name, at) = Text::read(alloc, bytes, at)?;
        let (thread, at) = u32::read(alloc, bytes, at)?;
        let (ended, at) = read_end(alloc, bytes, at)?;
        let join = Join {
            name,
            thread,
            ended,
        };
        Ok((join, at))
    }
}

fn spell_end(end: &Option<JoinEnd>, out: &mut Vec<u8>) -> Result<(), Memory>
    requires { end_form.Needs end.now }
    ensures { OnOk result (Written end_form end.now out.old.items out.new.items) }
{
    match end {
        None => {
            put_u8(out, 0)?;
            put_u8(out, 0)
        }
        Some(end) => {
            put_u8(out, 1)?;
            end.node.spell(out)?;
            put_u8(out, 1)?;
            end.outcome.spell(out)?;
            end.place.spell(out)
        }
    }
}

fn read_end(alloc: Global, bytes: &[u8], at: u64) -> Result<(Option<JoinEnd>, u64), FormRefusal>
    ensures { Gives result (end_form.reading bytes.now at) }
{
    let (kind, behind) = take_u8(bytes, at)?;
    match kind {
        0 => {
            let (_mark, at) = read_mark(bytes, behind, 0)?;
            Ok((None, at))
        }
        1 => {
            let (node, at) = u32::read(alloc, bytes, behind)?;
            let (_mark, at) = read_mark(bytes, at, 1)?;
            let (outcome, at) = Outcome::read(alloc, bytes, at)?;
            let (place, at) = u32::read(alloc, bytes, at)?;
            let end = JoinEnd {
                node,
                outcome,
                place,
            };
            Ok((Some(end), at))
        }
        _ => Err(FormRefusal::Fault { at }),
    }
}

fn read_mark(bytes: &[u8], at: u64, mark_byte: u8) -> Result<((), u64), FormRefusal>
    ensures { Gives result ((mark mark_byte).reading bytes.now at) }
{
    let (byte, behind) = take_u8(bytes, at)?;
    if byte == mark_byte {
        Ok(((), behind))
    } else {
        Err(FormRefusal::Fault { at })
    }
}

impl Field for Wait {
    ghost form = { wait_form };

    ghost lawful = { wait_lawful };

    fn spell(&self, out: &mut Vec<u8>) -> Result<(), Memory> {
        match self {
            Wait::Ready(_) => Ok(()),
            Wait::Request(number) => {
                put_u8(out, 0)?;
                number.spell(out)
            }
            Wait::Branches(joins) => {
                put_u8(out, 1)?;
                joins.spell(out)
            }
        }
    }

    fn read(alloc: Global, bytes: &[u8], at: u64) -> Result<(Wait, u64), FormRefusal> {
        let (kind, behind) = take_u8(bytes, at)?;
        match kind {
            0 => {
                let (number, at) = u32::read(alloc, bytes, behind)?;
                Ok((Wait::Request(number), at))
            }
            1 => {
                let (joins, at) = Joins::read(alloc, bytes, behind)?;
                Ok((Wait::Branches(joins), at))
            }
            _ => Err(FormRefusal::Fault { at }),
        }
    }
}

impl Field for Context {
    ghost form = { context_form };

    ghost lawful = { context_lawful };

    fn spell(&self, out: &mut Vec<u8>) -> Result<(), Memory> {
        self.held.spell(out)?;
        self.folders.spell(out)?;
        self.env.spell(out)
    }

    fn read(alloc: Global, bytes: &[u8], at: u64) -> Result<(Context, u64), FormRefusal> {
        let (held, at) = Ids::read(alloc, bytes, at)?;
        let (folders, at) = Texts::read(alloc, bytes, at)?;
        let (env, at) = Pairs::read(alloc, bytes, at)?;
        Ok((Context { held, folders, env }, at))
    }
}
