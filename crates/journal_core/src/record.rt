// A record, and how it is written.
ghost use Rattle.std.specs.Prelude.{◌≡◌, ◌≤◌, ◌<◌, ◌+◌, ◌^◌, ◌++◌, [], ◌∷◌, List, ℕ, length, IfOk, OnOk};
ghost use Rattle.jp_disk.specs.Runs.{AtEachMoment};
ghost use Rattle.device_faults.specs.Faults.{HasCause};
ghost use Rattle.journal_core.specs.Records.{body, HasWithOrWithout};
ghost use Rattle.journal_core.specs.State.{Stores};

use crate::durable::write_durably;
use byteorder::{BigEndian, ByteOrder};
use device_faults::Failed;
use jp_disk::Disk;
use std::alloc::{AllocError, Global};

/// Where a record stands: the place of its gate in the file, and the number of bytes of its payload.
#[derive(Clone, Copy, Debug, PartialEq, Eq)]
pub struct Record {
    pub at: u64,
    pub len: u32,
}

/// The length of a payload in four bytes, the payload, and a closed gate.
pub fn spell(alloc: Global, payload: &[u8]) -> Result<Vec<u8>, AllocError>
    requires { length payload.now < 2 ^ 32 }
    ensures { IfOk result (λ block. block.items ≡ body payload.now) }
{
    let mut head = [0; 4];
    BigEndian::write_u32(&mut head, payload.len() as u32);
    let mut block = Vec::new(alloc);
    block.extend_from_slice(&head)?;
    block.extend_from_slice(payload)?;
    block.push(0)?;
    Ok(block)
}

/// Writes what stands behind a gate, and opens the gate when that is durable, so that a crash never leaves an open
/// gate with less behind it.
pub fn write_record<D: Disk>(disk: &mut D, gate: u64, block: &[u8]) -> Result<(), Failed>
    requires room { gate + 1 + length block.now < 2 ^ 63 }
    requires within { gate + 1 ≤ D.end disk.old }
    ensures end { D.end disk.old ≤ D.end disk.new }
    ensures reached { OnOk result (gate + 1 + length block.now ≤ D.end disk.new) }
    ensures cause { HasCause (D.faults disk.old) (D.faults disk.new) result }
    ensures stored { (payloads : List (List ℕ)) (payload : List ℕ) → length payload < 2 ^ 32 → block.now ≡ body payload → Stores D.Disk disk.old (gate + 1) payloads
        → OnOk result (Stores D.Disk disk.new (gate + 1 + length block.now) (payloads ++ payload ∷ [])) }
    ensures any_moment { (payloads : List (List ℕ)) (payload : List ℕ) → length payload < 2 ^ 32 → block.now ≡ body payload → Stores D.Disk disk.old (gate + 1) payloads
        → AtEachMoment D.Disk disk.old disk.new (HasWithOrWithout payloads payload) }
{
    write_durably(disk, gate + 1, block)?;
    write_durably(disk, gate, &[1])
}
