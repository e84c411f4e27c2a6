// The gate at a place of the file, and the length behind it, in one read.
ghost use Rattle.std.specs.Prelude.{◌≡◌, ◌≤◌, ◌<◌, ◌+◌, ◌^◌, List, ℕ, length, take, drop, OnOk, IfOk, Some};
ghost use Rattle.byteorder.specs.Endian.{big_bytes, big_number};
ghost use Rattle.device_faults.specs.Faults.{HasCause};
ghost use Rattle.journal_core.specs.Moments.{OnlyReads};
ghost use Rattle.journal_core.specs.Finding.{IsHead, HeadEnds};

use byteorder::{BigEndian, ByteOrder};
use device_faults::Failed;
use jp_disk::Disk;

/// What stands at a place: a closed gate, an open one whose record does not end in the file, or one with a record.
pub enum Head {
    Closed,
    Cut,
    Open { len: u32 },
}

/// Fills the buffer with the bytes from this place on.
pub fn read_exact<D: Disk>(disk: &mut D, at: u64, buf: &mut [u8]) -> Result<(), Failed>
    requires within { at + length buf.old ≤ D.end disk.old }
    requires room { at + length buf.old < 2 ^ 64 }
    ensures quiet { OnlyReads D.Disk disk.old disk.new }
    ensures bytes { (file : List ℕ) → D.reads disk.old ≡ Some file → OnOk result (buf.new ≡ take (length buf.old) (drop at file)) }
    ensures cause { HasCause (D.faults disk.old) (D.faults disk.new) result }
{
    let mut done = 0;
    while done < buf.len() {
        let n = disk.read_at(at + done as u64, &mut buf[done..])?;
        done += n;
    }
    Ok(())
}

/// What stands at a place of a file of this length.
pub fn read_head<D: Disk>(disk: &mut D, at: u64, end: u64) -> Result<Head, Failed>
    requires end { end ≡ D.end disk.old }
    requires within { at < end }
    ensures quiet { OnlyReads D.Disk disk.old disk.new }
    ensures found { (file : List ℕ) → D.reads disk.old ≡ Some file → IfOk result (IsHead file at) }
    ensures within { IfOk result (HeadEnds at end) }
    ensures cause { HasCause (D.faults disk.old) (D.faults disk.new) result }
{
    let mut bytes = [0; 5];
    let size = (end - at).min(5) as usize;
    let head = &mut bytes[..size];
    read_exact(disk, at, head)?;
    if head[0] != 1 {
        return Ok(Head::Closed);
    }
    if end - at < 6 {
        return Ok(Head::Cut);
    }
    let len = length_of(&head[1..]);
    if end - at - 5 <= len as u64 {
        return Ok(Head::Cut);
    }
    Ok(Head::Open { len })
}

fn length_of(bytes: &[u8]) -> u32
    requires { length bytes.now ≡ 4 }
    ensures number { result ≡ big_number 4 bytes.now }
    ensures spelling { big_bytes 4 result ≡ bytes.now }
    ensures short { result < 2 ^ 32 }
{
    BigEndian::read_u32(bytes)
}
