// The trait, of a disk in memory.
ghost use Rattle.std.specs.Prelude.{◌≡◌, ◌≤◌, ◌<◌, ◌+◌, ◌^◌, [], length, IfOk, OnOk, OnErr, refl, Some, max, is_ok};
ghost use Rattle.jp_disk.specs.Images.{after_write, IsTornWrite, ImagesStep, IsOnlyImage, WritesNothing};
ghost use Rattle.jp_disk.specs.Moments.{TimePasses};
ghost use Rattle.device_faults.specs.Faults.{HasCause};
ghost use Rattle.jp_disk.specs.Reading.{IsReadCount, HasRead};
ghost use Rattle.jp_disk.specs.Medium.{MayLeave, at_rest};
ghost use Rattle.jp_disk.specs.History.{medium, images_since, IsOneCall};
ghost use Rattle.jp_disk.specs.ImageLaws.{same_image};
ghost use Rattle.jp_disk.specs.MediumLaws.{reads_image, left_now, left_last};

use crate::memory::MemoryDisk;
use crate::{Call, Disk};
use device_faults::Failed;

impl Disk for MemoryDisk {
    ghost end = { λ d. length (medium d).reads };

    ghost reads = { λ d. Some (medium d).reads };

    ghost may_leave = { λ d. MayLeave (medium d) };

    ghost clock = { λ d. length d.calls };

    ghost may_have_left_since = { images_since };

    ghost faults = { λ d. d.faults };

    ghost told_end = { λ d. refl };

    ghost told_image = { λ d. reads_image d.calls (at_rest d.first) (same_image d.first []) };

    ghost counts_now = { λ d t image le now. left_now d.calls t (at_rest d.first) image now };

    ghost only_now = { λ d image left. left_last d.calls (at_rest d.first) image left };

    /// As the trait says. Beside it, in each of these calls: it is kept, and fails where it is listed, and else only
    /// where memory for it was refused.
    fn len(&mut self) -> Result<u64, Failed>
        ensures one_call { IsOneCall Call.Len self.old self.new (is_ok result) }
        ensures length { IfOk result (λ n. n ≡ length (medium self.new).reads) }
        ensures end { OnErr result (length (medium self.new).reads ≡ length (medium self.old).reads) }
        ensures still { WritesNothing (Some (medium self.old).reads) (Some (medium self.new).reads) (MayLeave (medium self.old)) (MayLeave (medium self.new)) }
        ensures time { TimePasses (length self.old.calls) (length self.new.calls) (images_since self.old) (images_since self.new) (MayLeave (medium self.new)) }
        ensures cause { HasCause self.old.faults self.new.faults result }
    {
        self.call_len()?;
        Ok(self.bytes.len() as u64)
    }

    fn read_at(&mut self, at: u64, buf: &mut [u8]) -> Result<usize, Failed>
        ensures one_call { IsOneCall (Call.Read at (length buf.old)) self.old self.new (is_ok result) }
        ensures count { IfOk result (IsReadCount (length (medium self.old).reads) at buf.old) }
        ensures bytes { IfOk result (λ n. HasRead (medium self.old).reads at n buf.old buf.new) }
        ensures end { length (medium self.new).reads ≡ length (medium self.old).reads }
        ensures still { WritesNothing (Some (medium self.old).reads) (Some (medium self.new).reads) (MayLeave (medium self.old)) (MayLeave (medium self.new)) }
        ensures time { TimePasses (length self.old.calls) (length self.new.calls) (images_since self.old) (images_since self.new) (MayLeave (medium self.new)) }
        ensures cause { HasCause self.old.faults self.new.faults result }
    {
        self.call_read(at, buf.len() as u64)?;
        Ok(copy_from(self.bytes.as_slice(), at as usize, buf))
    }

    fn write_at(&mut self, at: u64, bytes: &[u8]) -> Result<(), Failed>
        requires within { at ≤ length (medium self.old).reads }
        requires room { at + length bytes.now < 2 ^ 64 }
        ensures one_call { IsOneCall (Call.Write at bytes.now) self.old self.new (is_ok result) }
        ensures written { OnOk result (Some (medium self.new).reads ≡ Some (after_write (medium self.old).reads at bytes.now)) }
        ensures told { IsTornWrite at (length bytes.now) (medium self.old).reads (medium self.new).reads }
        ensures end { OnOk result (length (medium self.new).reads ≡ max (length (medium self.old).reads) (at + length bytes.now)) }
        ensures no_shorter { length (medium self.old).reads ≤ length (medium self.new).reads }
        ensures images { ImagesStep (IsTornWrite at (length bytes.now)) (MayLeave (medium self.old)) (MayLeave (medium self.new)) }
        ensures time { TimePasses (length self.old.calls) (length self.new.calls) (images_since self.old) (images_since self.new) (MayLeave (medium self.new)) }
        ensures cause { HasCause self.old.faults self.new.faults result }
    {
        self.call_write(at, bytes)
    }

    fn sync(&mut self) -> Result<(), Failed>
        ensures one_call { IsOneCall Call.Sync self.old self.new (is_ok result) }
        ensures durable { OnOk result (IsOnlyImage (medium self.old).reads (MayLeave (medium self.new))) }
        ensures end { length (medium self.new).reads ≡ length (medium self.old).reads }
        ensures still { WritesNothing (Some (medium self.old).reads) (Some (medium self.new).reads) (MayLeave (medium self.old)) (MayLeave (medium self.new)) }
        ensures time { TimePasses (length self.old.calls) (length self.new.calls) (images_since self.old) (images_since self.new) (MayLeave (medium self.new)) }
        ensures cause { HasCause self.old.faults self.new.faults result }
    {
        self.call_sync()
    }
}

// Copies what stands from a place on, as much as there is room for.
fn copy_from(bytes: &[u8], at: usize, buf: &mut [u8]) -> usize
    ensures count { IsReadCount (length bytes.now) at buf.old result }
    ensures copied { HasRead bytes.now at result buf.old buf.new }
{
    if at >= bytes.len() {
        return 0;
    }
    let n = buf.len().min(bytes.len() - at);
    buf[..n].copy_from_slice(&bytes[at..at + n]);
    n
}
