// Makes a file ready for a first record.
ghost use Rattle.std.specs.Prelude.{◌≡◌, ◌≢◌, ◌⊎◌, ◌<◌, ◌+◌, List, [], ◌∷◌, ℕ, length, slice_index, OnOk, Some, IsErrOf};
ghost use Rattle.jp_disk.specs.Images.{IsOnlyImage, after_write};
ghost use Rattle.jp_disk.specs.Runs.{AtEachMoment};
ghost use Rattle.device_faults.specs.Faults.{CountsFault};
ghost use Rattle.journal_core.specs.Records.{records, Has};
ghost use Rattle.journal_core.specs.State.{Stores};
ghost use Rattle.journal_core.specs.Moments.{SinceSync};
ghost use Rattle.journal_core.specs.Finding.{PrepareLeaves};

use crate::CreateFault;
use crate::durable::{settle, write_durably};
use crate::head::read_exact;
use jp_disk::Disk;

/// Closes the first gate of a file that has no room for a record.
fn close_first<D: Disk>(disk: &mut D) -> Result<(), CreateFault>
    ensures stored { (file : List ℕ) → D.reads disk.old ≡ Some file → OnOk result (Stores D.Disk disk.new 1 []) }
    ensures written { (file : List ℕ) → D.reads disk.old ≡ Some file → OnOk result (D.reads disk.new ≡ Some (after_write file 0 (0 ∷ []))) }
    ensures any_moment { (file : List ℕ) → IsOnlyImage file (D.may_leave disk.old) → length file < 6 → AtEachMoment D.Disk disk.old disk.new (Has []) }
    ensures within { OnOk result (0 < D.end disk.new) }
    ensures only_disk { IsErrOf result CreateFault.HasRecord → ⊥ }
    ensures cause { CountsFault (D.faults disk.old) (D.faults disk.new) (IsErrOf result CreateFault.Disk) }
{
    match write_durably(disk, 0, &[0]) {
        Ok(()) => Ok(()),
        Err(_) => Err(CreateFault::Disk),
    }
}

/// Makes sure that the file has no record and begins with a closed gate, all of it durable.
pub fn prepare<D: Disk>(disk: &mut D) -> Result<(), CreateFault>
    ensures same { (file : List ℕ) → D.reads disk.old ≡ Some file → 0 < length file → slice_index file 0 ≢ 1 → OnOk result (D.reads disk.new ≡ Some file) }
    ensures closed { (file : List ℕ) → D.reads disk.old ≡ Some file → (file ≡ []) ⊎ (slice_index file 0 ≡ 1) → OnOk result (D.reads disk.new ≡ Some (after_write file 0 (0 ∷ []))) }
    ensures left { (file : List ℕ) → D.reads disk.old ≡ Some file → PrepareLeaves D.Disk file disk.new result }
    ensures any_moment { (file : List ℕ) → D.reads disk.old ≡ Some file
        → SinceSync D.Disk file disk.old disk.new (λ image. records image ≡ records file)
        ⊎ (IsErrOf result CreateFault.Disk × AtEachMoment D.Disk disk.old disk.new (D.may_leave disk.old)) }
    ensures within { OnOk result (0 < D.end disk.new) }
    ensures cause { CountsFault (D.faults disk.old) (D.faults disk.new) (IsErrOf result CreateFault.Disk) }
{
    let Ok(end) = settle(disk) else {
        return Err(CreateFault::Disk);
    };
    if end == 0 {
        return close_first(disk);
    }
    let mut gate = [0; 1];
    let Ok(()) = read_exact(disk, 0, &mut gate) else {
        return Err(CreateFault::Disk);
    };
    if gate[0] != 1 {
        return Ok(());
    }
    if end >= 6 {
        return Err(CreateFault::HasRecord);
    }
    close_first(disk)
}
