// Calls of a disk that end durably.
ghost use Rattle.std.specs.Prelude.{◌≡◌, ◌⊎◌, ◌≤◌, ◌<◌, ◌+◌, ◌^◌, max, List, ℕ, length, IfOk, OnOk, IsErr, Some};
ghost use Rattle.jp_disk.specs.Images.{IsOnlyImage, IsTornWrite, after_write};
ghost use Rattle.jp_disk.specs.Runs.{AtEachMoment};
ghost use Rattle.device_faults.specs.Faults.{HasCause};
ghost use Rattle.journal_core.specs.Moments.{SinceSync};

use device_faults::Failed;
use jp_disk::Disk;

/// Syncs, and answers the length of the file.
pub fn settle<D: Disk>(disk: &mut D) -> Result<u64, Failed>
    ensures length { IfOk result (λ n. n ≡ D.end disk.new) }
    ensures told { D.reads disk.new ≡ D.reads disk.old }
    ensures durable { (file : List ℕ) → D.reads disk.old ≡ Some file → OnOk result (IsOnlyImage file (D.may_leave disk.new)) }
    ensures any_moment { AtEachMoment D.Disk disk.old disk.new (D.may_leave disk.old) }
    ensures since_sync { (file : List ℕ) → D.reads disk.old ≡ Some file
        → SinceSync D.Disk file disk.old disk.new (λ image. image ≡ file) ⊎ IsErr result }
    ensures cause { HasCause (D.faults disk.old) (D.faults disk.new) result }
{
    disk.sync()?;
    disk.len()
}

/// Writes bytes at a place and syncs. Until then a crash may leave a torn write of them.
pub fn write_durably<D: Disk>(disk: &mut D, at: u64, bytes: &[u8]) -> Result<(), Failed>
    requires within { at ≤ D.end disk.old }
    requires room { at + length bytes.now < 2 ^ 64 }
    ensures end { OnOk result (D.end disk.new ≡ max (D.end disk.old) (at + length bytes.now)) }
    ensures no_shorter { D.end disk.old ≤ D.end disk.new }
    ensures written { (file : List ℕ) → D.reads disk.old ≡ Some file → OnOk result (D.reads disk.new ≡ Some (after_write file at bytes.now)) }
    ensures durable { (file : List ℕ) → D.reads disk.old ≡ Some file → OnOk result (IsOnlyImage (after_write file at bytes.now) (D.may_leave disk.new)) }
    ensures any_moment { (file : List ℕ) → IsOnlyImage file (D.may_leave disk.old) → AtEachMoment D.Disk disk.old disk.new (IsTornWrite at (length bytes.now) file) }
    ensures cause { HasCause (D.faults disk.old) (D.faults disk.new) result }
{
    disk.write_at(at, bytes)?;
    disk.sync()
}
