// Walks the gates of a file.
ghost use Rattle.std.specs.Prelude.{◌≡◌, ◌≤◌, ◌<◌, ◌+◌, ◌^◌, List, ℕ, length, IfOk, Some, IsErrOf, vec_len};
ghost use Rattle.std.specs.List.{All};
ghost use Rattle.jp_disk.specs.Runs.{AtEachMoment};
ghost use Rattle.device_faults.specs.Faults.{CountsFault};
ghost use Rattle.journal_core.specs.Moments.{OnlyReads};
ghost use Rattle.journal_core.specs.Answers.{StandInTurn};
ghost use Rattle.journal_core.specs.Finding.{WalkFinds, LoadFinds};

use crate::durable::settle;
use crate::head::{Head, read_head};
use crate::{OpenFault, Record};
use jp_disk::Disk;
use std::alloc::Global;

/// The place of the closed gate, and the records before it.
fn walk_gates<D: Disk>(
    alloc: Global,
    disk: &mut D,
    end: u64,
) -> Result<(u64, Vec<Record>), OpenFault>
    requires end { end ≡ D.end disk.old }
    requires room { 6 ≤ end }
    ensures quiet { OnlyReads D.Disk disk.old disk.new }
    ensures found { (file : List ℕ) → D.reads disk.old ≡ Some file → WalkFinds file result }
    ensures within { IfOk result (λ found. found.0 < end) }
    ensures each { IfOk result (λ found. All (λ entry. entry.at + 5 + entry.len ≤ found.0) found.1.items) }
    ensures in_turn { IfOk result (λ found. StandInTurn 0 found.1.items (found.0 + 1)) }
    ensures cause { CountsFault (D.faults disk.old) (D.faults disk.new) (IsErrOf result OpenFault.Disk) }
{
    let mut entries = Vec::new(alloc);
    let mut at = 0;
    loop {
        let Ok(head) = read_head(disk, at, end) else {
            return Err(OpenFault::Disk);
        };
        match head {
            Head::Closed => return Ok((at, entries)),
            Head::Cut => return Err(OpenFault::Damaged { at }),
            Head::Open { len } => {
                let Ok(()) = entries.push(Record { at, len }) else {
                    return Err(OpenFault::Memory);
                };
                at += 5 + len as u64;
            }
        }
    }
}

/// The length of the journal in a file and its records, where there is one. It syncs first, so that what it finds is
/// durable, and writes nothing.
pub fn load<D: Disk>(alloc: Global, disk: &mut D) -> Result<(u64, Vec<Record>), OpenFault>
    ensures found { (file : List ℕ) → D.reads disk.old ≡ Some file → LoadFinds D.Disk file disk.new result }
    ensures told { (file : List ℕ) → D.reads disk.old ≡ Some file → D.reads disk.new ≡ Some file }
    ensures any_moment { AtEachMoment D.Disk disk.old disk.new (D.may_leave disk.old) }
    ensures some { IfOk result (λ found. 0 < found.0) }
    ensures within { IfOk result (λ found. found.0 ≤ D.end disk.new) }
    ensures each { IfOk result (λ found. All (λ entry. entry.at + 5 + entry.len < found.0) found.1.items) }
    ensures filled { IfOk result (λ found. 0 < vec_len found.1) }
    ensures in_turn { IfOk result (λ found. StandInTurn 0 found.1.items found.0) }
    ensures cause { CountsFault (D.faults disk.old) (D.faults disk.new) (IsErrOf result OpenFault.Disk) }
{
    let Ok(end) = settle(disk) else {
        return Err(OpenFault::Disk);
    };
    if end < 6 {
        return Err(OpenFault::Empty);
    }
    let (place, entries) = walk_gates(alloc, disk, end)?;
    if entries.is_empty() {
        return Err(OpenFault::Empty);
    }
    Ok((place + 1, entries))
}
