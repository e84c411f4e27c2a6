//! Events.

ghost use Rattle.field_form.specs.Events.{stream_form, stream_lawful, why_form, why_lawful, event_form, event_lawful};

use crate::{Field, FormRefusal, take_one_of};
use byte_form::{Memory, put_u8, take_u8};
use model_run::{Event, Stream, Why};
use model_text::{Bytes, Text};
use std::alloc::Global;

impl Field for Stream {
    ghost form = { stream_form };

    ghost lawful = { stream_lawful };

    fn spell(&self, out: &mut Vec<u8>) -> Result<(), Memory> {
        put_u8(out, *self as u8)
    }

    fn read(_alloc: Global, bytes: &[u8], at: u64) -> Result<(Stream, u64), FormRefusal> {
        take_one_of(bytes, at, &[Stream::Log, Stream::Out])
    }
}

impl Field for Why {
    ghost form = { why_form };

    ghost lawful = { why_lawful };

    fn spell(&self, out: &mut Vec<u8>) -> Result<(), Memory> {
        put_u8(out, *self as u8)
    }

    fn read(_alloc: Global, bytes: &[u8], at: u64) -> Result<(Why, u64), FormRefusal> {
        take_one_of(bytes, at, &[Why::NotStarted, Why::Gone])
    }
}

impl Field for Event {
    ghost form = { event_form };

    ghost lawful = { event_lawful };

    fn spell(&self, out: &mut Vec<u8>) -> Result<(), Memory> {
        match self {
            Event::Start { script, agents } => {
                put_u8(out, 0)?;
                script.spell(out)?;
                agents.spell(out)
            }
            Event::Granted { request, executor } => {
                put_u8(out, 1)?;
                request.spell(out)?;
                executor.spell(out)
            }
            Event::Output {
                task,
                stream,
                from,
                bytes,
            } => {
                put_u8(out, 2)?;
                task.spell(out)?;
                stream.spell(out)?;
                from.spell(out)?;
                bytes.spell(out)
            }
            Event::Exited { task, code } => {
                put_u8(out, 3)?;
                task.spell(out)?;
                code.spell(out)
            }
            Event::Lost { task, why } => {
                put_u8(out, 4)?;
                task.spell(out)?;
                why.spell(out)
            }
            Event::Decided {
                request,
                proceed,
                name,
            } => {
                put_u8(out, 5)?;
                request.spell(out)?;
                proceed.spell(out)?;
                name.spell(out)
            }
        }
    }

    fn read(alloc: Global, bytes: &[u8], at: u64) -> Result<(Event, u64), FormRefusal> {
        let (kind, behind) = take_u8(bytes, at)?;
        match kind {
            0 => {
                let (script, behind) = Bytes::read(alloc, bytes, behind)?;
                let (agents, behind) = Bytes::read(alloc, bytes, behind)?;
                Ok((Event::Start { script, agents }, behind))
            }
            1 => {
                let (request, behind) = u32::read(alloc, bytes, behind)?;
                let (executor, behind) = u32::read(alloc, bytes, behind)?;
                Ok((Event::Granted { request, executor }, behind))
            }
            2 => {
                let (task, behind) = u32::read(alloc, bytes, behind)?;
                let (stream, behind) = Stream::read(alloc, bytes, behind)?;
                let (from, behind) = u64::read(alloc, bytes, behind)?;
                let (taken, behind) = Bytes::read(alloc, bytes, behind)?;
                let output = Event::Output {
                    task,
                    stream,
                    from,
                    bytes: taken,
                };
                Ok((output, behind))
            }
            3 => {
                let (task, behind) = u32::read(alloc, bytes, behind)?;
                let (code, behind) = i32::read(alloc, bytes, behind)?;
                Ok((Event::Exited { task, code }, behind))
            }
            4 => {
                let (task, behind) = u32::read(alloc, bytes, behind)?;
                let (why, behind) = Why::read(alloc, bytes, behind)?;
                Ok((Event::Lost { task, why }, behind))
            }
            5 => {
                let (request, behind) = u32::read(alloc, bytes, behind)?;
                let (proceed, behind) = bool::read(alloc, bytes, behind)?;
                let (name, behind) = Text::read(alloc, bytes, behind)?;
                let decided = Event::Decided {
                    request,
                    proceed,
                    name,
                };
                Ok((decided, behind))
            }
            _ => Err(FormRefusal::Fault { at }),
        }
    }
}
