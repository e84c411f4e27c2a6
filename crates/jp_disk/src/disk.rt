// The trait of a disk with one file.
ghost use Rattle.std.specs.Prelude.{◌≡◌, ◌+◌, ◌^◌, ◌<◌, ◌≤◌, List, ℕ, length, max, Option, IfOk, IfSome, IsSomeAnd, OnOk, OnErr, Some};
ghost use Rattle.jp_disk.specs.Images.{after_write, ImagesStep, IsOnlyImage, IsTornWrite, WritesNothing};
ghost use Rattle.jp_disk.specs.Moments.{TimePasses};
ghost use Rattle.device_faults.specs.Faults.{HasCause};
ghost use Rattle.jp_disk.specs.Reading.{HasRead, IsReadCount};

use device_faults::Failed;

/// One file on a disk, of at most `u64::MAX` bytes, which nobody else writes.
///
/// Between two syncs each written range and the part past the old end may hold any bytes after a crash, and the
/// length may be any between the old end and the new one; the bytes outside stay. A write that failed counts as
/// pending too. After a sync that answers `Ok` a crash leaves what a read gives.
///
/// A disk may tell the bytes of its file (`reads`), as one in memory does. A clause about the bytes holds where it
/// tells them; the clauses about crashes hold for every disk. One that knows nothing of crashes, as a real file,
/// says that a crash may leave anything.
pub trait Disk {
    /// The length in bytes: of what a read gives, where that is told, and else what `len` answered last or a later
    /// write made larger, 0 before both.
    ghost end: { Self → ℕ };

    /// The bytes that a read gives now, where the disk tells them.
    ghost reads: { Self → Option (List ℕ) };

    /// The images of the file that a crash at this moment may leave.
    ghost may_leave: { Self → List ℕ → Type 0 };

    /// The number of this moment.
    ghost clock: { Self → ℕ };

    /// The images that a crash may have left at any moment from that one on.
    ghost may_have_left_since: { Self → ℕ → List ℕ → Type 0 };

    /// How often the disk has failed, up to `u64::MAX`.
    ghost faults: { Self → ℕ };

    /// The length of the file in bytes. It writes nothing. `Failed` comes only where the count of faults rose.
    fn len(&mut self) -> Result<u64, Failed>
        ensures length { IfOk result (λ n. n ≡ end self.new) }
        ensures end { OnErr result (end self.new ≡ end self.old) }
        ensures still { WritesNothing (reads self.old) (reads self.new) (may_leave self.old) (may_leave self.new) }
        ensures time { TimePasses (clock self.old) (clock self.new) (may_have_left_since self.old) (may_have_left_since self.new) (may_leave self.new) }
        ensures cause { HasCause (faults self.old) (faults self.new) result };

    /// Reads bytes from the place `at` on into the front of `buf`, and answers how many: at least one below the end,
    /// where `buf` is not empty, and 0 from the end on. It may give fewer than there are. It writes nothing. After
    /// `Failed`, which comes only where the count of faults rose, the bytes in `buf` are open.
    fn read_at(&mut self, at: u64, buf: &mut [u8]) -> Result<usize, Failed>
        ensures count { IfOk result (IsReadCount (end self.old) at buf.old) }
        ensures bytes { IfOk result (λ n. IfSome (reads self.old) (λ file. HasRead file at n buf.old buf.new)) }
        ensures end { end self.new ≡ end self.old }
        ensures still { WritesNothing (reads self.old) (reads self.new) (may_leave self.old) (may_leave self.new) }
        ensures time { TimePasses (clock self.old) (clock self.new) (may_have_left_since self.old) (may_have_left_since self.new) (may_leave self.new) }
        ensures cause { HasCause (faults self.old) (faults self.new) result };

    /// Writes `bytes` at the place `at`, over what is there and past the end. Until the next sync that answers `Ok`
    /// the range is pending, also where the write failed: then it may have been done, in part or not at all.
    /// `Failed` comes only where the count of faults rose.
    fn write_at(&mut self, at: u64, bytes: &[u8]) -> Result<(), Failed>
        requires within { at ≤ end self.old }
        requires room { at + length bytes.now < 2 ^ 64 }
        ensures written { OnOk result (IfSome (reads self.old) (λ file. reads self.new ≡ Some (after_write file at bytes.now))) }
        ensures told { IfSome (reads self.old) (λ file. IsSomeAnd (reads self.new) (λ now. IsTornWrite at (length bytes.now) file now)) }
        ensures end { OnOk result (end self.new ≡ max (end self.old) (at + length bytes.now)) }
        ensures no_shorter { end self.old ≤ end self.new }
        ensures images { ImagesStep (IsTornWrite at (length bytes.now)) (may_leave self.old) (may_leave self.new) }
        ensures time { TimePasses (clock self.old) (clock self.new) (may_have_left_since self.old) (may_have_left_since self.new) (may_leave self.new) }
        ensures cause { HasCause (faults self.old) (faults self.new) result };

    /// Makes all that was written durable: after `Ok` a crash leaves what a read gives and nothing else. It changes
    /// no byte. After `Failed`, which comes only where the count of faults rose, all that was pending still is.
    fn sync(&mut self) -> Result<(), Failed>
        ensures durable { OnOk result (IfSome (reads self.old) (λ file. IsOnlyImage file (may_leave self.new))) }
        ensures end { end self.new ≡ end self.old }
        ensures still { WritesNothing (reads self.old) (reads self.new) (may_leave self.old) (may_leave self.new) }
        ensures time { TimePasses (clock self.old) (clock self.new) (may_have_left_since self.old) (may_have_left_since self.new) (may_leave self.new) }
        ensures cause { HasCause (faults self.old) (faults self.new) result };

    /// Where the bytes are told, the end is theirs.
    ghost told_end: { (disk : Self) → IfSome (reads disk) (λ file. end disk ≡ length file) };

    /// What a read gives is one of the images.
    ghost told_image: { (disk : Self) → IfSome (reads disk) (λ file. may_leave disk file) };

    /// This moment is one of those since an earlier one.
    ghost counts_now: { (disk : Self) (t : ℕ) (image : List ℕ) → t ≤ clock disk → may_leave disk image → may_have_left_since disk t image };

    /// Since this moment there has been no other.
    ghost only_now: { (disk : Self) (image : List ℕ) → may_have_left_since disk (clock disk) image → may_leave disk image };
}
