//! Images as bytes and back.

ghost use Rattle.std.specs.Prelude.{IfOk, OnOk, Ok};
ghost use Rattle.field_form.specs.Reading.{Gives};
ghost use Rattle.field_form.specs.Forms.{Spells, Written, whole_of};
ghost use Rattle.image_form.specs.Images.{CanBeWritten, binding_behind, binding_behind_lawful, first_form, image_form, image_lawful, image_parts, other_form, result_form};
ghost use Rattle.image_form.specs.declared.image.Image.{Image as Whole};

use crate::{ByThread, Image, ImageThread};
use byte_form::{Memory, put_u8};
use field_form::{
    ByExecutor, ByNumber, Counted, Field, FormRefusal, Listing, put_list, read_whole, take_list,
    take_one_of, write_whole,
};
use model_run::{BuildResult, FlowNode, Held, OpenRequest};
use model_text::{Bytes, Sequence, Text};
use model_values::{Binding, Cell};
use std::alloc::Global;

/// The image that the bytes, all of them, spell. `Fault` tells the first place where their form breaks; where bytes
/// are left over this is the place behind the image. `Memory` where there is none.
pub fn read_image(alloc: Global, bytes: &[u8]) -> Result<Image, FormRefusal>
    // What is read is spelled so.
    ensures found { IfOk result (λ image. Spells image_form image bytes.now) }
    // What is spelled so is read, unless there is no memory.
    ensures again { (image : Whole) → Spells image_form image bytes.now → Gives result (Ok image) }
    // Where the form breaks first.
    ensures place { Gives result (whole_of image_form bytes.now) }
    // What was read can be written.
    ensures writable { IfOk result CanBeWritten }
{
    read_whole(alloc, bytes)
}

/// The spelling of the image. `Memory` where there is none.
pub fn write_image(alloc: Global, image: &Image) -> Result<Bytes, Memory>
    requires { CanBeWritten image.now }
    ensures { IfOk result (λ bytes. Spells image_form image.now bytes) }
{
    write_whole(alloc, image)
}

/// The variables of a binding by rising names.
pub struct ByName;

impl Listing<Binding> for ByName {
    ghost behind = { binding_behind };

    ghost lawful = { binding_behind_lawful };

    fn spell(_before: &[Binding], binding: &Binding, out: &mut Vec<u8>) -> Result<(), Memory> {
        binding.spell(out)
    }

    fn read(
        alloc: Global,
        before: &[Binding],
        bytes: &[u8],
        at: u64,
    ) -> Result<(Binding, u64), FormRefusal> {
        let (name, behind) = Text::read(alloc, bytes, at)?;
        if before.last().is_some_and(|last| last.name >= name) {
            return Err(FormRefusal::Fault { at });
        }
        let (cell, behind) = u32::read(alloc, bytes, behind)?;
        Ok((Binding { name, cell }, behind))
    }
}

impl Field for Image {
    ghost form = { image_form };

    ghost lawful = { image_lawful };

    fn spell(&self, out: &mut Vec<u8>) -> Result<(), Memory> {
        spell_first(self, out)?;
        spell_others(self, out)
    }

    fn read(alloc: Global, bytes: &[u8], at: u64) -> Result<(Image, u64), FormRefusal> {
        let (next_request, at) = u32::read(alloc, bytes, at)?;
        let (next_thread, at) = u32::read(alloc, bytes, at)?;
        let (result, at) = read_result(bytes, at)?;
        let (ended, at) = bool::read(alloc, bytes, at)?;
        let (bindings, at) = take_list::<Binding, ByName>(alloc, bytes, at)?;
        let (cells, at) = Sequence::<Cell>::read(alloc, bytes, at)?;
        let (nodes, at) = take_list::<FlowNode, Counted>(alloc, bytes, at)?;
        let (log, at) = Bytes::read(alloc, bytes, at)?;
        let (requests, at) = take_list::<OpenRequest, ByNumber>(alloc, bytes, at)?;
        let (held, at) = take_list::<Held, ByExecutor>(alloc, bytes, at)?;
        let (threads, at) = take_list::<ImageThread, ByThread>(alloc, bytes, at)?;
        let image = Image {
            next_request,
            next_thread,
            result,
            ended,
            bindings,
            cells,
            nodes,
            log,
            requests,
            held,
            threads,
        };
        Ok((image, at))
    }
}

fn spell_first(image: &Image, out: &mut Vec<u8>) -> Result<(), Memory>
    requires { first_form.Needs (image_parts image.now).0 }
    ensures { OnOk result (Written first_form (image_parts image.now).0 out.old.items out.new.items) }
{
    image.next_request.spell(out)?;
    image.next_thread.spell(out)?;
    put_result(image.result, out)?;
    image.ended.spell(out)?;
    put_list::<Binding, ByName>(&image.bindings, out)?;
    image.cells.spell(out)
}

fn spell_others(image: &Image, out: &mut Vec<u8>) -> Result<(), Memory>
    requires { other_form.Needs (image_parts image.now).1 }
    ensures { OnOk result (Written other_form (image_parts image.now).1 out.old.items out.new.items) }
{
    put_list::<FlowNode, Counted>(&image.nodes, out)?;
    image.log.spell(out)?;
    put_list::<OpenRequest, ByNumber>(&image.requests, out)?;
    put_list::<Held, ByExecutor>(&image.held, out)?;
    put_list::<ImageThread, ByThread>(&image.threads, out)
}

fn put_result(value: BuildResult, out: &mut Vec<u8>) -> Result<(), Memory>
    ensures { OnOk result (Written result_form value out.old.items out.new.items) }
{
    put_u8(out, value.rank())
}

fn read_result(bytes: &[u8], at: u64) -> Result<(BuildResult, u64), FormRefusal>
    ensures { Gives result (result_form.reading bytes.now at) }
{
    take_one_of(
        bytes,
        at,
        &[
            BuildResult::Success,
            BuildResult::Unstable,
            BuildResult::Failure,
            BuildResult::NotBuilt,
            BuildResult::Aborted,
        ],
    )
}
