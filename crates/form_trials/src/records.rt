//! Records of `record_form` by their bytes, and where the form of a record breaks first.

use field_form::write_whole;
use model_text::Bytes;
use record_form::{FormRefusal, Measured, read_record};
use std::alloc::Global;
use std::test::Fail;

/// Task 2 exited with 3, and an image in which nothing has happened.
const EXITED: &[u8] = b"\
    \x01\x03\x00\x00\x00\x02\x00\x00\x00\x03\
    \x00\x00\x00\x01\x00\x00\x00\x00\x00\x00\x00\x00\x00\x00\x00\x00\x00\x00\x00\x00\x00\x00\x00\x00\x00\
    \x00\x00\x00\x00\x00\x00\x00\x00\x00\x00\x00\x00\x00\
";

/// The same image behind a `Start` of the script `a` and no agents file.
const STARTED: &[u8] = b"\
    \x01\x00\x00\x00\x00\x01\x61\x00\x00\x00\x00\
    \x00\x00\x00\x01\x00\x00\x00\x00\x00\x00\x00\x00\x00\x00\x00\x00\x00\x00\x00\x00\x00\x00\x00\x00\x00\
    \x00\x00\x00\x00\x00\x00\x00\x00\x00\x00\x00\x00\x00\
";

fn again(alloc: Global, bytes: &[u8]) -> Option<(u64, Bytes)> {
    match read_record(alloc, bytes) {
        Ok(record) => {
            let spelled = write_whole(alloc, &record).ok()?;
            Some((record.size(), spelled))
        }
        Err(_) => None,
    }
}

#[test]
fn records_are_read_and_spelled_again_in_their_sizes(rt: HostRuntime) -> Result<(), Fail> {
    for bytes in [EXITED, STARTED] {
        let (size, spelled) = again(rt.alloc(), bytes).ok_or("no record, or no memory")?;
        assert_eq!(rt; spelled.as_slice(), bytes);
        assert_eq!(rt; size, bytes.len() as u64);
    }
    Ok(())
}

fn fault(bytes: &[u8], rt: HostRuntime) -> Option<u64> {
    match read_record(rt.alloc(), bytes) {
        Err(FormRefusal::Fault { at }) => Some(at),
        _ => None,
    }
}

#[test]
fn a_record_breaks_at_its_first_place(rt: HostRuntime) -> Result<(), Fail> {
    for (bytes, place) in [
        (b"".as_slice(), 0),
        (b"\x00\x03".as_slice(), 0),
        (b"\x02\x03".as_slice(), 0),
        (b"\x01".as_slice(), 1),
        (b"\x01\x06".as_slice(), 1),
        (b"\x01\x03\0\0\0\x02\0\0\0".as_slice(), 6),
        (b"\x01\x03\0\0\0\x02\0\0\0\x03".as_slice(), 10),
    ] {
        assert_eq!(rt; fault(bytes, rt), Some(place));
    }
    let mut more = EXITED.to_vec(rt.alloc())?;
    more.push(0)?;
    assert_eq!(rt; fault(&more, rt), Some(48));
    Ok(())
}
