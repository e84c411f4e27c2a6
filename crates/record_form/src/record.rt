//! Records as bytes and back.

ghost use Rattle.std.specs.Prelude.{◌≡◌, ◌<◌, ◌^◌, IfOk, OnOk, Ok, length};
ghost use Rattle.field_form.specs.Reading.{Gives};
ghost use Rattle.field_form.specs.Forms.{Spells, Written, mark, whole_of};
ghost use Rattle.field_form.specs.Events.{event_form};
ghost use Rattle.image_form.specs.Images.{CanBeWritten};
ghost use Rattle.record_form.specs.Sizes.{size_in};
ghost use Rattle.record_form.specs.Ordered.{IsInOrder};
ghost use Rattle.record_form.specs.Records.{record_form, record_lawful, record_of};
ghost use Rattle.record_form.specs.declared.record.EventRecord.{EventRecord as Whole};

use crate::Measured;
use byte_form::{Memory, put_u8, take_u8};
use field_form::{Field, FormRefusal, read_whole};
use image_form::Image;
use model_run::Event;
use model_text::{Bytes, Sequence};
use std::alloc::Global;

/// The first byte of a record of an event and a whole image.
const WHOLE: u8 = 1;

/// An event that a build accepted, and the image of the build after it.
#[derive(Drop)]
pub struct EventRecord {
    pub event: Event,
    pub image: Image,
}

/// The record that the bytes, all of them, spell. `Fault` tells the first place where their form breaks; where bytes
/// are left over this is the place behind the image. `Memory` where there is none.
pub fn read_record(alloc: Global, bytes: &[u8]) -> Result<EventRecord, FormRefusal>
    // What is read is spelled so.
    ensures found { IfOk result (λ r. Spells record_form r bytes.now) }
    // What is spelled so is read, unless there is no memory.
    ensures again { (r : Whole) → Spells record_form r bytes.now → Gives result (Ok r) }
    // Where the form breaks first.
    ensures place { Gives result (whole_of record_form bytes.now) }
    // What was read can be written.
    ensures writable { IfOk result (λ r. event_form.Needs r.event × CanBeWritten r.image) }
{
    read_whole(alloc, bytes)
}

/// The spelling of the record of this event and this image. `Memory` where there is none.
pub fn write_record(alloc: Global, event: &Event, image: &Image) -> Result<Bytes, Memory>
    // What rises in the image does so, and the record is short enough: `record_size` tells that.
    requires order { IsInOrder image.now }
    requires short { length (record_form.spelling (record_of event.now image.now)) < 2 ^ 32 }
    ensures { IfOk result (λ bytes. Spells record_form (record_of event.now image.now) bytes) }
{
    let mut out = Vec::new(alloc);
    spell_record(event, image, &mut out)?;
    Ok(Sequence::from_vec(out))
}

/// How many bytes the spelling of the record of this event and this image has, or `u64::MAX` where it has more. A text
/// or list that is too long for its `u32` counts as its four bytes and its bytes or items. It takes no memory.
pub fn record_size(event: &Event, image: &Image) -> u64
    ensures { result ≡ size_in record_form (record_of event.now image.now) }
{
    event.size().saturating_add(image.size()).saturating_add(1)
}

fn spell_record(event: &Event, image: &Image, out: &mut Vec<u8>) -> Result<(), Memory>
    requires event { event_form.Needs event.now }
    requires image { CanBeWritten image.now }
    ensures { OnOk result (Written record_form (record_of event.now image.now) out.old.items out.new.items) }
{
    put_kind(out)?;
    event.spell(out)?;
    image.spell(out)
}

fn put_kind(out: &mut Vec<u8>) -> Result<(), Memory>
    ensures { OnOk result (Written (mark 1) tt out.old.items out.new.items) }
{
    put_u8(out, WHOLE)
}

fn read_kind(bytes: &[u8], at: u64) -> Result<((), u64), FormRefusal>
    ensures { Gives result ((mark 1).reading bytes.now at) }
{
    let (kind, behind) = take_u8(bytes, at)?;
    if kind == WHOLE {
        Ok(((), behind))
    } else {
        Err(FormRefusal::Fault { at })
    }
}

impl Field for EventRecord {
    ghost form = { record_form };

    ghost lawful = { record_lawful };

    fn spell(&self, out: &mut Vec<u8>) -> Result<(), Memory> {
        spell_record(&self.event, &self.image, out)
    }

    fn read(alloc: Global, bytes: &[u8], at: u64) -> Result<(EventRecord, u64), FormRefusal> {
        let (_kind, at) = read_kind(bytes, at)?;
        let (event, at) = Event::read(alloc, bytes, at)?;
        let (image, at) = Image::read(alloc, bytes, at)?;
        Ok((EventRecord { event, image }, at))
    }
}

impl Measured for EventRecord {
    fn size(&self) -> u64 {
        record_size(&self.event, &self.image)
    }
}
