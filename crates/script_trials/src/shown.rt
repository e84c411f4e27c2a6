//! What a trial shows of the image of its build, as text.

use crate::images::{Refusal, build_in, image_bytes};
use build_core::Build;
use build_images::image_of;
use frame_rows::frame_kind;
use image_form::Image;
use model_run::Event;
use saved_thread::SavedThread;
use std::alloc::{AllocError, Global};
use trial_text::Trial;

/// How many bytes a line has, two digits each.
const LINE: usize = 50;

/// What is shown of an image.
#[derive(Drop)]
pub enum Shown {
    /// Its bytes.
    Bytes,
    /// What comes of its bytes with one more behind them.
    Longer,
    /// What comes of its bytes with another number of 32 bits at a place.
    Number { place: usize, number: u32 },
    /// What comes of its bytes with each of them raised by one in turn, and of the builds in them with this event.
    Each(Event),
    /// The kinds of its frames.
    Kinds,
}

/// Writes what is to be shown of the image of a build; of one that has not begun nothing. `AllocError` where the memory was
/// refused.
pub fn write_shown<R: SavedThread + Drop>(
    alloc: Global,
    trial: &Trial<'_>,
    build: &Build<R>,
    shown: &Shown,
    out: &mut Vec<u8>,
) -> Result<(), AllocError> {
    if !build.has_begun() {
        return Ok(());
    }
    let mut bytes = image_bytes(alloc, build)?.into_vec();
    match shown {
        Shown::Bytes => write_digits(&bytes, out),
        Shown::Longer => {
            bytes.push(0)?;
            write_outcome::<R>(alloc, trial, &bytes, out)
        }
        Shown::Number { place, number } => {
            let changed = with_number(alloc, &bytes, *place, *number)?;
            write_outcome::<R>(alloc, trial, &changed, out)
        }
        Shown::Each(event) => write_each::<R>(alloc, trial, &bytes, event, out),
        Shown::Kinds => write_kinds(alloc, &image_of(build)?, out),
    }
}

/// Writes the kinds of the frames in an image, each once, in their order.
fn write_kinds(alloc: Global, image: &Image, out: &mut Vec<u8>) -> Result<(), AllocError> {
    out.extend_from_slice(b"frames:")?;
    for number in 0..=u8::MAX {
        if let Some(kind) = frame_kind(number) {
            if has_kind(image, number) {
                let word = format!(in alloc; " {kind:?}")?;
                out.extend_from_slice(word.as_bytes())?;
            }
        }
    }
    out.extend_from_slice(b"\n")
}

/// Whether a thread of an image has a frame of this kind.
fn has_kind(image: &Image, kind: u8) -> bool {
    for thread in image.threads.as_slice() {
        if thread
            .frames
            .as_slice()
            .iter()
            .any(|frame| frame.kind == kind)
        {
            return true;
        }
    }
    false
}

/// Writes bytes as digits of base 16.
fn write_digits(bytes: &[u8], out: &mut Vec<u8>) -> Result<(), AllocError> {
    for (place, byte) in bytes.iter().enumerate() {
        if place > 0 && place % LINE == 0 {
            out.push(b'\n')?;
        }
        out.push(digit(*byte / 16))?;
        out.push(digit(*byte % 16))?;
    }
    out.push(b'\n')?;
    Ok(())
}

/// The digit of a number below 16.
fn digit(number: u8) -> u8 {
    match b"0123456789abcdef".get(usize::from(number)) {
        Some(digit) => *digit,
        None => b'?',
    }
}

/// Writes what comes of the bytes of an image: a build, or why there is none.
fn write_outcome<R: SavedThread + Drop>(
    alloc: Global,
    trial: &Trial<'_>,
    bytes: &[u8],
    out: &mut Vec<u8>,
) -> Result<(), AllocError> {
    let line = match build_in::<R>(alloc, trial, bytes) {
        Ok(_build) => format!(in alloc; "a build\n")?,
        Err(refusal) => format!(in alloc; "{refusal:?}\n")?,
    };
    out.extend_from_slice(line.as_bytes())
}

/// Writes at which bytes of an image one that is raised by one gives a build that does not go on with an event, and how many
/// bytes there are.
fn write_each<R: SavedThread + Drop>(
    alloc: Global,
    trial: &Trial<'_>,
    bytes: &[u8],
    event: &Event,
    out: &mut Vec<u8>,
) -> Result<(), AllocError> {
    for place in 0..bytes.len() {
        let changed = raised(alloc, bytes, place)?;
        if !is_refused_or_goes_on::<R>(alloc, trial, &changed, event)? {
            let line = format!(in alloc; "byte {place}: a build that does not go on\n")?;
            out.extend_from_slice(line.as_bytes())?;
        }
    }
    let line = format!(in alloc;
        "each of {} bytes raised: a refusal, or a build that goes on\n",
        bytes.len()
    )?;
    out.extend_from_slice(line.as_bytes())
}

/// Whether bytes are refused, or give a build that with this event comes to a wait or an end: one of which the image passes
/// its check.
fn is_refused_or_goes_on<R: SavedThread + Drop>(
    alloc: Global,
    trial: &Trial<'_>,
    bytes: &[u8],
    event: &Event,
) -> Result<bool, AllocError> {
    match build_in::<R>(alloc, trial, bytes) {
        Ok(mut build) => {
            build.take(event)?;
            goes_on(alloc, trial, &build)
        }
        Err(Refusal::Memory) => Err(AllocError),
        Err(_) => Ok(true),
    }
}

/// Whether a build has begun, and there is a build in its image.
fn goes_on<R: SavedThread + Drop>(
    alloc: Global,
    trial: &Trial<'_>,
    build: &Build<R>,
) -> Result<bool, AllocError> {
    if !build.has_begun() {
        return Ok(false);
    }
    let bytes = image_bytes(alloc, build)?;
    Ok(build_in::<R>(alloc, trial, bytes.as_slice()).is_ok())
}

/// The bytes with the one at this place raised by one; 255 becomes 0.
fn raised(alloc: Global, bytes: &[u8], place: usize) -> Result<Vec<u8>, AllocError> {
    let mut changed = bytes.to_vec(alloc)?;
    if place < changed.len() {
        changed[place] = changed[place].wrapping_add(1);
    }
    Ok(changed)
}

/// The bytes with this number of 32 bits at a place; behind their end where they have no such place.
fn with_number(
    alloc: Global,
    bytes: &[u8],
    place: usize,
    number: u32,
) -> Result<Vec<u8>, AllocError> {
    let mut changed = Vec::with_capacity(alloc, bytes.len())?;
    let (front, behind) = bytes.split_at(place.min(bytes.len()));
    changed.extend_from_slice(front)?;
    changed.extend_from_slice(&number.to_be_bytes())?;
    changed.extend_from_slice(behind.get(4..).unwrap_or(&[]))?;
    Ok(changed)
}
