//! Deltas as bytes and back.

ghost use Rattle.std.specs.Prelude.{IfOk, OnOk, Ok};
ghost use Rattle.field_form.specs.Reading.{Gives};
ghost use Rattle.field_form.specs.Forms.{Spells, Written, whole_of};
ghost use Rattle.image_form.specs.Images.{result_form};
ghost use Rattle.delta_form.specs.Deltas.{CanBeWritten, delta_form, delta_lawful, delta_parts, first_form, other_form};
ghost use Rattle.delta_form.specs.declared.delta.Delta.{Delta as Change};

use crate::{
    ByCell, ByWrittenRequest, ByWrittenThread, Delta, NewNode, NumberedCell, Rising,
    WrittenRequest, WrittenThread,
};
use byte_form::{Memory, put_u8};
use field_form::{
    ByExecutor, Field, FormRefusal, put_list, read_whole, take_list, take_one_of, write_whole,
};
use image_form::ByName;
use model_run::{BuildResult, Held};
use model_text::{Bytes, Sequence};
use model_values::Binding;
use std::alloc::Global;

/// The delta that the bytes, all of them, spell. `Fault` tells the first place where their form breaks; where bytes
/// are left over this is the place behind the delta. `Memory` where there is none.
pub fn read_delta(alloc: Global, bytes: &[u8]) -> Result<Delta, FormRefusal>
    // What is read is spelled so.
    ensures found { IfOk result (λ delta. Spells delta_form delta bytes.now) }
    // What is spelled so is read, unless there is no memory.
    ensures again { (delta : Change) → Spells delta_form delta bytes.now → Gives result (Ok delta) }
    // Where the form breaks first.
    ensures place { Gives result (whole_of delta_form bytes.now) }
    // What was read can be written.
    ensures writable { IfOk result CanBeWritten }
{
    read_whole(alloc, bytes)
}

/// The spelling of the delta, whose lists and texts have fewer than 4,294,967,296 items or bytes, whose names and
/// numbers rise, and of which no thread is ready to go on. `Memory` where there is none.
pub fn write_delta(alloc: Global, delta: &Delta) -> Result<Bytes, Memory>
    requires { CanBeWritten delta.now }
    ensures { IfOk result (λ bytes. Spells delta_form delta.now bytes) }
{
    write_whole(alloc, delta)
}

impl Field for Delta {
    ghost form = { delta_form };

    ghost lawful = { delta_lawful };

    fn spell(&self, out: &mut Vec<u8>) -> Result<(), Memory> {
        spell_first(self, out)?;
        spell_others(self, out)
    }

    fn read(alloc: Global, bytes: &[u8], at: u64) -> Result<(Delta, u64), FormRefusal> {
        let (next_request, at) = u32::read(alloc, bytes, at)?;
        let (next_thread, at) = u32::read(alloc, bytes, at)?;
        let (result, at) = read_result(bytes, at)?;
        let (ended, at) = bool::read(alloc, bytes, at)?;
        let (bindings, at) = take_list::<Binding, ByName>(alloc, bytes, at)?;
        let (cells, at) = take_list::<NumberedCell, ByCell>(alloc, bytes, at)?;
        let (nodes, at) = Sequence::<NewNode>::read(alloc, bytes, at)?;
        let (log, at) = Bytes::read(alloc, bytes, at)?;
        let (closed_requests, at) = take_list::<u32, Rising>(alloc, bytes, at)?;
        let (requests, at) = take_list::<WrittenRequest, ByWrittenRequest>(alloc, bytes, at)?;
        let (held, at) = take_list::<Held, ByExecutor>(alloc, bytes, at)?;
        let (ended_threads, at) = take_list::<u32, Rising>(alloc, bytes, at)?;
        let (threads, at) = take_list::<WrittenThread, ByWrittenThread>(alloc, bytes, at)?;
        let delta = Delta {
            next_request,
            next_thread,
            result,
            ended,
            bindings,
            cells,
            nodes,
            log,
            closed_requests,
            requests,
            held,
            ended_threads,
            threads,
        };
        Ok((delta, at))
    }
}

fn spell_first(delta: &Delta, out: &mut Vec<u8>) -> Result<(), Memory>
    requires { first_form.Needs (delta_parts delta.now).0 }
    ensures { OnOk result (Written first_form (delta_parts delta.now).0 out.old.items out.new.items) }
{
    delta.next_request.spell(out)?;
    delta.next_thread.spell(out)?;
    put_result(delta.result, out)?;
    delta.ended.spell(out)?;
    put_list::<Binding, ByName>(&delta.bindings, out)?;
    put_list::<NumberedCell, ByCell>(&delta.cells, out)
}

fn spell_others(delta: &Delta, out: &mut Vec<u8>) -> Result<(), Memory>
    requires { other_form.Needs (delta_parts delta.now).1 }
    ensures { OnOk result (Written other_form (delta_parts delta.now).1 out.old.items out.new.items) }
{
    delta.nodes.spell(out)?;
    delta.log.spell(out)?;
    put_list::<u32, Rising>(&delta.closed_requests, out)?;
    put_list::<WrittenRequest, ByWrittenRequest>(&delta.requests, out)?;
    put_list::<Held, ByExecutor>(&delta.held, out)?;
    put_list::<u32, Rising>(&delta.ended_threads, out)?;
    put_list::<WrittenThread, ByWrittenThread>(&delta.threads, out)
}

fn put_result(value: BuildResult, out: &mut Vec<u8>) -> Result<(), Memory>
    ensures { OnOk result (Written result_form value out.old.items out.new.items) }
{
    put_u8(out, value.rank())
}

fn read_result(bytes: &[u8], at: u64) -> Result<(BuildResult, u64), FormRefusal>
    ensures { Gives result (result_form.reading bytes.now at) }
{
    take_one_of(
        bytes,
        at,
        &[
            BuildResult::Success,
            BuildResult::Unstable,
            BuildResult::Failure,
            BuildResult::NotBuilt,
            BuildResult::Aborted,
        ],
    )
}
