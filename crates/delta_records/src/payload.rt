//! Payloads as bytes and back.

ghost use Rattle.std.specs.Prelude.{◌≡◌, IfOk, Ok, OnOk};
ghost use Rattle.field_form.specs.Reading.{Gives};
ghost use Rattle.field_form.specs.Events.{event_form};
ghost use Rattle.field_form.specs.Forms.{Spells, Written, pair, whole_of};
ghost use Rattle.record_form.specs.Sizes.{size_in};
ghost use Rattle.delta_records.specs.Payloads.{CanBeWritten, payload_form, payload_lawful};
ghost use Rattle.delta_records.specs.declared.payload.Payload.{Payload as AnyPayload};

use byte_form::{Memory, put_u8, take_u8};
use delta_form::Delta;
use field_form::{Field, FormRefusal, read_whole, write_whole};
use image_form::Image;
use model_run::Event;
use model_text::Bytes;
use record_form::Measured;
use std::alloc::Global;

/// The first byte of an event and a whole image.
const WHOLE: u8 = 1;

/// The first byte of an event and what it changed.
const CHANGED: u8 = 2;

/// An event that a build accepted, and the build after it.
#[derive(Drop)]
pub enum Payload {
    /// All of the build.
    Whole { event: Event, image: Image },
    /// What the event changed of it.
    Changed { event: Event, delta: Delta },
}

/// The payload that the bytes, all of them, spell. `Fault` tells the first place where their form breaks; where bytes
/// are left over this is the place behind the payload. `Memory` where there is none.
pub fn read_payload(alloc: Global, bytes: &[u8]) -> Result<Payload, FormRefusal>
    // What is read is spelled so.
    ensures found { IfOk result (λ payload. Spells payload_form payload bytes.now) }
    // What is spelled so is read, unless there is no memory.
    ensures again { (payload : AnyPayload) → Spells payload_form payload bytes.now → Gives result (Ok payload) }
    // Where the form breaks first.
    ensures place { Gives result (whole_of payload_form bytes.now) }
    // What was read can be written.
    ensures writable { IfOk result CanBeWritten }
{
    read_whole(alloc, bytes)
}

/// The spelling of the payload. `Memory` where there is none.
pub fn write_payload(alloc: Global, payload: &Payload) -> Result<Bytes, Memory>
    requires { CanBeWritten payload.now }
    ensures { IfOk result (λ bytes. Spells payload_form payload.now bytes) }
{
    write_whole(alloc, payload)
}

/// How many bytes the spelling of the payload has, or `u64::MAX` where it has more. It takes no memory.
pub fn payload_size(payload: &Payload) -> u64
    ensures { result ≡ size_in payload_form payload.now }
{
    payload.size()
}

impl Field for Payload {
    ghost form = { payload_form };

    ghost lawful = { payload_lawful };

    fn spell(&self, out: &mut Vec<u8>) -> Result<(), Memory> {
        match self {
            Payload::Whole { event, image } => {
                put_u8(out, WHOLE)?;
                spell_both(event, image, out)
            }
            Payload::Changed { event, delta } => {
                put_u8(out, CHANGED)?;
                spell_both(event, delta, out)
            }
        }
    }

    fn read(alloc: Global, bytes: &[u8], at: u64) -> Result<(Payload, u64), FormRefusal> {
        let (kind, behind) = take_u8(bytes, at)?;
        match kind {
            WHOLE => {
                let (event, at) = Event::read(alloc, bytes, behind)?;
                let (image, at) = Image::read(alloc, bytes, at)?;
                Ok((Payload::Whole { event, image }, at))
            }
            CHANGED => {
                let (event, at) = Event::read(alloc, bytes, behind)?;
                let (delta, at) = Delta::read(alloc, bytes, at)?;
                Ok((Payload::Changed { event, delta }, at))
            }
            _ => Err(FormRefusal::Fault { at }),
        }
    }
}

fn spell_both<T: Field>(event: &Event, behind: &T, out: &mut Vec<u8>) -> Result<(), Memory>
    requires event { event_form.Needs event.now }
    requires behind { T.form.Needs behind.now }
    ensures { OnOk result (Written (pair event_form T.form) (event.now, behind.now) out.old.items out.new.items) }
{
    event.spell(out)?;
    behind.spell(out)
}

impl Measured for Payload {
    fn size(&self) -> u64 {
        match self {
            Payload::Whole { event, image } => {
                event.size().saturating_add(image.size()).saturating_add(1)
            }
            Payload::Changed { event, delta } => {
                event.size().saturating_add(delta.size()).saturating_add(1)
            }
        }
    }
}
