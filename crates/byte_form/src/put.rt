//! The writers. Each leaves `out` as it was where there is no memory, which is their only error.

ghost use Rattle.std.specs.Prelude.{◌≡◌, ◌+◌, ◌^◌, ◌<◌, ◌++◌, length, OnOk, OnErr};
ghost use Rattle.byte_form.specs.Fields.{u8_spelling, u32_spelling, u64_spelling, i32_spelling, bytes_spelling};

use crate::Memory;

/// Writes one byte behind `out`.
pub fn put_u8(out: &mut Vec<u8>, value: u8) -> Result<(), Memory>
    ensures ok { OnOk result (out.new.items ≡ out.old.items ++ u8_spelling value) }
    ensures err { OnErr result (out.new.items ≡ out.old.items) }
{
    append(out, &[value])
}

/// Writes four bytes behind `out`, the highest first.
pub fn put_u32(out: &mut Vec<u8>, value: u32) -> Result<(), Memory>
    ensures ok { OnOk result (out.new.items ≡ out.old.items ++ u32_spelling value) }
    ensures err { OnErr result (out.new.items ≡ out.old.items) }
{
    append(out, &value.to_be_bytes())
}

/// Writes eight bytes behind `out`, the highest first.
pub fn put_u64(out: &mut Vec<u8>, value: u64) -> Result<(), Memory>
    ensures ok { OnOk result (out.new.items ≡ out.old.items ++ u64_spelling value) }
    ensures err { OnErr result (out.new.items ≡ out.old.items) }
{
    append(out, &value.to_be_bytes())
}

/// Writes the four bytes of the two's complement behind `out`, the highest first.
pub fn put_i32(out: &mut Vec<u8>, value: i32) -> Result<(), Memory>
    ensures ok { OnOk result (out.new.items ≡ out.old.items ++ i32_spelling value) }
    ensures err { OnErr result (out.new.items ≡ out.old.items) }
{
    append(out, &value.to_be_bytes())
}

/// Writes the number of the bytes as a `u32` behind `out`, and then the bytes.
pub fn put_bytes(out: &mut Vec<u8>, value: &[u8]) -> Result<(), Memory>
    requires { length value.now < 2 ^ 32 }
    ensures ok { OnOk result (out.new.items ≡ out.old.items ++ bytes_spelling value.now) }
    ensures err { OnErr result (out.new.items ≡ out.old.items) }
{
    let before = out.len();
    put_u32(out, value.len() as u32)?;
    let rest = append(out, value);
    if rest.is_err() {
        out.truncate(before);
    }
    rest
}

// Both at once or neither.
fn append(out: &mut Vec<u8>, field: &[u8]) -> Result<(), Memory>
    ensures ok { OnOk result (out.new.items ≡ out.old.items ++ field.now) }
    ensures err { OnErr result (out.new.items ≡ out.old.items) }
{
    out.extend_from_slice(field)?;
    Ok(())
}
