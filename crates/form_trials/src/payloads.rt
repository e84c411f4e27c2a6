//! Payloads of `delta_records`: bytes and back, where their form breaks first, and the images that they have.

use crate::deltas::{A_GAP, DECIDED, GROWN};
use crate::images::INPUT;
use delta_records::{
    DeltaRefusal, FormRefusal, next_image, payload_size, read_payload, write_payload,
};
use image_form::Image;
use std::alloc::{AllocError, Global};
use std::test::Fail;

/// The bytes of this kind, of an event and of what stands behind it: task 2 exited with 3.
fn payload(alloc: Global, kind: u8, behind: &[u8]) -> Result<Vec<u8>, AllocError> {
    let mut bytes = Vec::new(alloc);
    bytes.push(kind)?;
    bytes.extend_from_slice(b"\x03\x00\x00\x00\x02\x00\x00\x00\x03")?;
    bytes.extend_from_slice(behind)?;
    Ok(bytes)
}

fn written_again(alloc: Global, bytes: &[u8]) -> Option<(u64, Vec<u8>)> {
    match read_payload(alloc, bytes) {
        Ok(read) => {
            let written = write_payload(alloc, &read).ok()?;
            Some((payload_size(&read), written.into_vec()))
        }
        Err(_) => None,
    }
}

#[test]
fn payloads_are_read_and_written_again_in_their_sizes(rt: HostRuntime) -> Result<(), Fail> {
    for (kind, behind) in [(1, INPUT), (2, DECIDED), (2, GROWN)] {
        let bytes = payload(rt.alloc(), kind, behind)?;
        let (size, again) = written_again(rt.alloc(), &bytes).ok_or("no payload, or no memory")?;
        assert_eq!(rt; again.as_slice(), bytes.as_slice());
        assert_eq!(rt; size, bytes.len() as u64);
    }
    Ok(())
}

fn fault(bytes: &[u8], rt: HostRuntime) -> Option<u64> {
    match read_payload(rt.alloc(), bytes) {
        Err(FormRefusal::Fault { at }) => Some(at),
        _ => None,
    }
}

#[test]
fn a_payload_breaks_at_its_first_place(rt: HostRuntime) -> Result<(), Fail> {
    for (kind, behind, place) in [
        (0, INPUT, 0),
        (3, DECIDED, 0),
        (1, b"".as_slice(), 10),
        (2, b"\0\0\0\x01\0\0\0\0\x05".as_slice(), 18),
    ] {
        let bytes = payload(rt.alloc(), kind, behind)?;
        assert_eq!(rt; fault(&bytes, rt), Some(place));
    }
    Ok(())
}

fn behind(
    alloc: Global,
    before: Option<Image>,
    bytes: &[u8],
) -> Option<Result<Image, DeltaRefusal>> {
    match read_payload(alloc, bytes) {
        Ok(read) => Some(next_image(alloc, before, read)),
        Err(_) => None,
    }
}

#[test]
fn changes_are_made_on_the_image_before_them(rt: HostRuntime) -> Result<(), Fail> {
    let alloc = rt.alloc();
    let whole = payload(alloc, 1, INPUT)?;
    let decided = payload(alloc, 2, DECIDED)?;
    let gap = payload(alloc, 2, A_GAP)?;
    let first = behind(alloc, None, &whole)
        .and_then(|r| r.ok())
        .ok_or("the whole image")?;
    let second = behind(alloc, Some(first), &decided)
        .and_then(|r| r.ok())
        .ok_or("the image behind the changes")?;
    assert_eq!(rt; (second.cells.len(), second.log.len()), (3, 20));
    let none = behind(alloc, Some(second), &gap).and_then(|r| r.err());
    assert_eq!(rt; none, Some(DeltaRefusal::Fault));
    let alone = behind(alloc, None, &decided).and_then(|r| r.err());
    assert_eq!(rt; alone, Some(DeltaRefusal::Fault));
    Ok(())
}
