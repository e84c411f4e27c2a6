//! Each field both ways at the ends of its type, and cut by one byte. The bytes are those of `python3`'s
//! `struct.pack('>..')`.

use super::*;
use std::alloc::Global;
use std::test::Fail;

#[test]
fn a_byte_both_ways(rt: HostRuntime) -> Result<(), Fail> {
    for value in [0u8, 255] {
        let mut out = vec![in rt.alloc(); 9u8]?;
        put_u8(&mut out, value)?;
        assert_eq!(rt; out.as_slice(), [9, value].as_slice());
        assert_eq!(rt; take_u8(&out, 1), Ok((value, 2)));
        assert_eq!(rt; take_u8(&out, 2), Err(FormFault { at: 2 }));
    }
    Ok(())
}

#[test]
fn four_bytes_both_ways(rt: HostRuntime) -> Result<(), Fail> {
    for (value, bytes) in [
        (0u32, [0u8, 0, 0, 0]),
        (0x0102_0304, [1, 2, 3, 4]),
        (u32::MAX, [0xff, 0xff, 0xff, 0xff]),
    ] {
        let mut out = Vec::new(rt.alloc());
        put_u32(&mut out, value)?;
        assert_eq!(rt; out.as_slice(), bytes.as_slice());
        assert_eq!(rt; take_u32(&out, 0), Ok((value, 4)));
        assert_eq!(rt; take_u32(&bytes[..3], 0), Err(FormFault { at: 0 }));
    }
    Ok(())
}

#[test]
fn eight_bytes_both_ways(rt: HostRuntime) -> Result<(), Fail> {
    for (value, bytes) in [
        (0u64, [0u8, 0, 0, 0, 0, 0, 0, 0]),
        (0x8000_0000_0000_0005, [0x80, 0, 0, 0, 0, 0, 0, 5]),
        (u64::MAX, [0xff, 0xff, 0xff, 0xff, 0xff, 0xff, 0xff, 0xff]),
    ] {
        let mut out = Vec::new(rt.alloc());
        put_u64(&mut out, value)?;
        assert_eq!(rt; out.as_slice(), bytes.as_slice());
        assert_eq!(rt; take_u64(&out, 0), Ok((value, 8)));
        assert_eq!(rt; take_u64(&bytes[..7], 0), Err(FormFault { at: 0 }));
    }
    Ok(())
}

#[test]
fn a_signed_number_both_ways(rt: HostRuntime) -> Result<(), Fail> {
    for (value, bytes) in [
        (i32::MIN, [0x80u8, 0, 0, 0]),
        (-2, [0xff, 0xff, 0xff, 0xfe]),
        (i32::MAX, [0x7f, 0xff, 0xff, 0xff]),
    ] {
        let mut out = Vec::new(rt.alloc());
        put_i32(&mut out, value)?;
        assert_eq!(rt; out.as_slice(), bytes.as_slice());
        assert_eq!(rt; take_i32(&out, 0), Ok((value, 4)));
        assert_eq!(rt; take_i32(&bytes[1..], 0), Err(FormFault { at: 0 }));
    }
    Ok(())
}

#[test]
fn bytes_both_ways(rt: HostRuntime) -> Result<(), Fail> {
    let mut out = Vec::new(rt.alloc());
    put_bytes(&mut out, b"abc")?;
    put_bytes(&mut out, b"")?;
    assert_eq!(rt;
        out.as_slice(),
        b"\x00\x00\x00\x03abc\x00\x00\x00\x00".as_slice()
    );
    let (value, at) = take_bytes(&out, 0).ok().ok_or("a field")?;
    assert_eq!(rt; value, b"abc".as_slice());
    assert_eq!(rt; at, 7);
    let (value, at) = take_bytes(&out, 7).ok().ok_or("a field")?;
    assert_eq!(rt; value.len(), 0);
    assert_eq!(rt; at, 11);
    Ok(())
}

#[test]
fn cut_bytes_are_a_fault_at_their_own_place(rt: HostRuntime) {
    let cut = b"\x00\x00\x00\x03ab";
    assert_eq!(rt; take_bytes(cut, 0).err(), Some(FormFault { at: 0 }));
    assert_eq!(rt; take_bytes(cut, 3).err(), Some(FormFault { at: 3 }));
    assert_eq!(rt;
        take_bytes(cut, u64::MAX).err(),
        Some(FormFault { at: u64::MAX })
    );
}
