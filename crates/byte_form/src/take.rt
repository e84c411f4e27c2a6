//! The readers. None takes memory, and a place may be any number.

ghost use Rattle.std.specs.Prelude.{◌≡◌, ◌+◌, ◌^◌, ◌<◌, ◌↔◌, ℕ, ℤ, List, length, take, drop, IfOk, IfErr, IsErr, FitsSigned};
ghost use Rattle.std.specs.Int.{w32, w64, to_be_bytes, from_be_bytes, cast_unsigned};
ghost use Rattle.byte_form.specs.Fields.{u8_spelling, u32_spelling, u64_spelling, i32_spelling, bytes_spelling, StandsAt, stated_length, FieldsAreApart};

use crate::FormFault;

/// Reads the byte at this place.
pub fn take_u8(bytes: &[u8], at: u64) -> Result<(u8, u64), FormFault>
    // What is read stands there, and is the one value that does.
    ensures found { IfOk result (λ got. StandsAt (u8_spelling got.0) at bytes.now) }
    ensures again { (value : ℕ) → StandsAt (u8_spelling value) at bytes.now → IfOk result (λ got. got.0 ≡ value) }
    ensures behind { IfOk result (λ got. got.1 ≡ at + 1) }

    ensures too_few { IsErr result ↔ (length bytes.now < at + 1) }
    ensures place { IfErr result (λ fault. fault.at ≡ at) }
{
    let (field, behind) = part(bytes, at, 1)?;
    Ok((field[0], behind))
}

/// Reads the four bytes at this place, the highest first.
pub fn take_u32(bytes: &[u8], at: u64) -> Result<(u32, u64), FormFault>
    ensures found { IfOk result (λ got. StandsAt (u32_spelling got.0) at bytes.now) }
    ensures again { (value : ℕ) → value < 2 ^ 32 → StandsAt (u32_spelling value) at bytes.now → IfOk result (λ got. got.0 ≡ value) }
    ensures behind { IfOk result (λ got. got.1 ≡ at + 4) }

    ensures too_few { IsErr result ↔ (length bytes.now < at + 4) }
    ensures place { IfErr result (λ fault. fault.at ≡ at) }
{
    let (field, behind) = part(bytes, at, 4)?;
    Ok((u32_of(field), behind))
}

/// Reads the eight bytes at this place, the highest first.
pub fn take_u64(bytes: &[u8], at: u64) -> Result<(u64, u64), FormFault>
    ensures found { IfOk result (λ got. StandsAt (u64_spelling got.0) at bytes.now) }
    ensures again { (value : ℕ) → value < 2 ^ 64 → StandsAt (u64_spelling value) at bytes.now → IfOk result (λ got. got.0 ≡ value) }
    ensures behind { IfOk result (λ got. got.1 ≡ at + 8) }

    ensures too_few { IsErr result ↔ (length bytes.now < at + 8) }
    ensures place { IfErr result (λ fault. fault.at ≡ at) }
{
    let (field, behind) = part(bytes, at, 8)?;
    Ok((u64_of(field), behind))
}

/// Reads the four bytes of a two's complement at this place, the highest first.
pub fn take_i32(bytes: &[u8], at: u64) -> Result<(i32, u64), FormFault>
    ensures found { IfOk result (λ got. StandsAt (i32_spelling got.0) at bytes.now) }
    ensures again { (value : ℤ) → FitsSigned w32 value → StandsAt (i32_spelling value) at bytes.now → IfOk result (λ got. got.0 ≡ value) }
    ensures behind { IfOk result (λ got. got.1 ≡ at + 4) }

    ensures too_few { IsErr result ↔ (length bytes.now < at + 4) }
    ensures place { IfErr result (λ fault. fault.at ≡ at) }
{
    let (field, behind) = part(bytes, at, 4)?;
    Ok((i32_of(field), behind))
}

/// Reads a `u32` at this place, and as many bytes behind it as it says.
pub fn take_bytes(bytes: &[u8], at: u64) -> Result<(&[u8], u64), FormFault>
    ensures found { IfOk result (λ got. StandsAt (bytes_spelling got.0.now) at bytes.now) }
    ensures again { (value : List ℕ) → length value < 2 ^ 32 → StandsAt (bytes_spelling value) at bytes.now → IfOk result (λ got. got.0.now ≡ value) }
    ensures behind { IfOk result (λ got. got.1 ≡ at + 4 + length got.0.now) }

    ensures too_few { IsErr result ↔ (length bytes.now < at + 4 + stated_length at bytes.now) }
    ensures place { IfErr result (λ fault. fault.at ≡ at) }
{
    let (field, start) = part(bytes, at, 4)?;
    let len = u32_of(field);
    let Ok((value, behind)) = part(bytes, start, u64::from(len)) else {
        return Err(FormFault { at });
    };
    Ok((value, behind))
}

/// No spelling of a field is the beginning of another of its kind, and different values have different spellings.
pub fn spellings_are_apart()
    ensures { FieldsAreApart }
{}

// The bytes of this number from this place on, and the place behind them.
fn part(bytes: &[u8], at: u64, len: u64) -> Result<(&[u8], u64), FormFault>
    ensures part { IfOk result (λ got. got.0.now ≡ take len (drop at bytes.now)) }
    ensures length { IfOk result (λ got. length got.0.now ≡ len) }
    ensures behind { IfOk result (λ got. got.1 ≡ at + len) }
    ensures too_few { IsErr result ↔ (length bytes.now < at + len) }
    ensures place { IfErr result (λ fault. fault.at ≡ at) }
{
    let end = bytes.len() as u64;
    if at > end || len > end - at {
        return Err(FormFault { at });
    }
    let behind = at + len;
    Ok((&bytes[at as usize..behind as usize], behind))
}

fn u32_of(field: &[u8]) -> u32
    requires { length field.now ≡ 4 }
    ensures spelling { u32_spelling result ≡ field.now }
    ensures value { result ≡ from_be_bytes w32 field.now }
{
    u32::from_be_bytes([field[0], field[1], field[2], field[3]])
}

fn u64_of(field: &[u8]) -> u64
    requires { length field.now ≡ 8 }
    ensures { u64_spelling result ≡ field.now }
{
    u64::from_be_bytes([
        field[0], field[1], field[2], field[3], field[4], field[5], field[6], field[7],
    ])
}

fn i32_of(field: &[u8]) -> i32
    requires { length field.now ≡ 4 }
    ensures { i32_spelling result ≡ field.now }
{
    i32::from_be_bytes([field[0], field[1], field[2], field[3]])
}
