//! A disk whose store one controller at a time may use.

ghost use Rattle.std.specs.Prelude.{◌≡◌, ◌≢◌, ◌≤◌, ◌<◌, ◌+◌, ◌^◌, length, max, IfOk, IfSome, IsSomeAnd, OnOk, OnErr, IsOk, IsErr, Some};
ghost use Rattle.device_faults.specs.Faults.{HasCause};
ghost use Rattle.jp_disk.specs.Images.{after_write, ImagesStep, IsOnlyImage, IsTornWrite, WritesNothing};
ghost use Rattle.jp_disk.specs.Moments.{TimePasses};
ghost use Rattle.jp_disk.specs.Reading.{HasRead, IsReadCount};
ghost use Rattle.real_edge.specs.LockedDisk.{IsGuarded};
ghost use Rattle.real_edge.specs.StoreLock.{Settles};

use crate::store_lock::StoreLock;
use device_faults::{Failed, Faults};
use jp_disk::Disk;
use std::fs::File;
use std::rt::Files;

/// A disk that takes the lock of its store at the first call.
///
/// Where the lock is held, or none is asked for, each call is that of the disk below. Where it is refused, since another
/// controller holds it or its file cannot be opened, each call fails and counts a fault, and the disk below is never
/// called: nothing of the store changes. Why it was refused is said on standard error, once.
#[derive(Drop)]
pub struct LockedDisk<'a, R, D> {
    disk: D,
    // It goes behind the disk, so that none has the lock while this one still writes.
    lock: StoreLock<'a, R>,
    faults: Faults,
}

impl<'a, R: Files<File = File> + Eprint, D: Disk> LockedDisk<'a, R, D> {
    /// This disk, whose store nobody else may use who locks it: the lock is on the file at this path. Nothing is opened
    /// yet, and no call has failed.
    pub fn locked(rt: &'a R, path: String, disk: D) -> Self
        ensures new { result ≡ record { disk = disk; lock = StoreLock.Wanted (record { rt = rt.entry; path = path }); faults = 0 } }
    {
        LockedDisk {
            disk,
            lock: StoreLock::wanted(rt, path),
            faults: Faults::new(),
        }
    }

    /// This disk, for whoever only reads: it asks for no lock. No call has failed.
    pub fn unlocked(disk: D) -> Self
        ensures new { result ≡ record { disk = disk; lock = StoreLock.Unneeded; faults = 0 } }
    {
        LockedDisk {
            disk,
            lock: StoreLock::Unneeded,
            faults: Faults::new(),
        }
    }

    // Takes the lock where it is wanted, and fails where it is refused.
    fn enter(&mut self) -> Result<(), Failed>
        ensures settled { Settles self.old.lock self.new.lock }
        ensures refused { IsErr result → self.new.lock ≡ StoreLock.Refused }
        ensures free { IsOk result → self.new.lock ≢ StoreLock.Refused }
        ensures disk { self.new.disk ≡ self.old.disk }
        ensures cause { HasCause self.old.faults self.new.faults result }
    {
        if self.lock.settle() {
            Ok(())
        } else {
            Err(self.faults.rise())
        }
    }
}

impl<R: Files<File = File> + Eprint, D: Disk> Disk for LockedDisk<'_, R, D> {
    ghost end = { λ locked. D.end locked.disk };

    ghost reads = { λ locked. D.reads locked.disk };

    ghost may_leave = { λ locked. D.may_leave locked.disk };

    ghost clock = { λ locked. D.clock locked.disk };

    ghost may_have_left_since = { λ locked. D.may_have_left_since locked.disk };

    ghost faults = { λ locked. locked.faults };

    ghost told_end = { λ locked. D.told_end locked.disk };

    ghost told_image = { λ locked. D.told_image locked.disk };

    ghost counts_now = { λ locked. D.counts_now locked.disk };

    ghost only_now = { λ locked. D.only_now locked.disk };

    /// As the trait says. Beside it, of each of these calls: the lock is asked for once, and a call fails only where it is
    /// refused, and then leaves the disk below as it was, or where the disk below failed (`guarded`).
    fn len(&mut self) -> Result<u64, Failed>
        ensures guarded { IsGuarded D.Disk self.old self.new result }

        ensures length { IfOk result (λ n. n ≡ D.end self.new.disk) }
        ensures end { OnErr result (D.end self.new.disk ≡ D.end self.old.disk) }
        ensures still { WritesNothing (D.reads self.old.disk) (D.reads self.new.disk) (D.may_leave self.old.disk) (D.may_leave self.new.disk) }
        ensures time { TimePasses (D.clock self.old.disk) (D.clock self.new.disk) (D.may_have_left_since self.old.disk) (D.may_have_left_since self.new.disk) (D.may_leave self.new.disk) }
        ensures cause { HasCause self.old.faults self.new.faults result }
    {
        self.enter()?;
        match self.disk.len() {
            Ok(len) => Ok(len),
            Err(Failed) => Err(self.faults.rise()),
        }
    }

    fn read_at(&mut self, at: u64, buf: &mut [u8]) -> Result<usize, Failed>
        ensures guarded { IsGuarded D.Disk self.old self.new result }

        ensures count { IfOk result (IsReadCount (D.end self.old.disk) at buf.old) }
        ensures bytes { IfOk result (λ n. IfSome (D.reads self.old.disk) (λ file. HasRead file at n buf.old buf.new)) }
        ensures end { D.end self.new.disk ≡ D.end self.old.disk }
        ensures still { WritesNothing (D.reads self.old.disk) (D.reads self.new.disk) (D.may_leave self.old.disk) (D.may_leave self.new.disk) }
        ensures time { TimePasses (D.clock self.old.disk) (D.clock self.new.disk) (D.may_have_left_since self.old.disk) (D.may_have_left_since self.new.disk) (D.may_leave self.new.disk) }
        ensures cause { HasCause self.old.faults self.new.faults result }
    {
        self.enter()?;
        match self.disk.read_at(at, buf) {
            Ok(count) => Ok(count),
            Err(Failed) => Err(self.faults.rise()),
        }
    }

    fn write_at(&mut self, at: u64, bytes: &[u8]) -> Result<(), Failed>
        requires within { at ≤ D.end self.old.disk }
        requires room { at + length bytes.now < 2 ^ 64 }
        ensures guarded { IsGuarded D.Disk self.old self.new result }

        ensures written { OnOk result (IfSome (D.reads self.old.disk) (λ file. D.reads self.new.disk ≡ Some (after_write file at bytes.now))) }
        ensures told { IfSome (D.reads self.old.disk) (λ file. IsSomeAnd (D.reads self.new.disk) (λ now. IsTornWrite at (length bytes.now) file now)) }
        ensures end { OnOk result (D.end self.new.disk ≡ max (D.end self.old.disk) (at + length bytes.now)) }
        ensures no_shorter { D.end self.old.disk ≤ D.end self.new.disk }
        ensures images { ImagesStep (IsTornWrite at (length bytes.now)) (D.may_leave self.old.disk) (D.may_leave self.new.disk) }
        ensures time { TimePasses (D.clock self.old.disk) (D.clock self.new.disk) (D.may_have_left_since self.old.disk) (D.may_have_left_since self.new.disk) (D.may_leave self.new.disk) }
        ensures cause { HasCause self.old.faults self.new.faults result }
    {
        self.enter()?;
        match self.disk.write_at(at, bytes) {
            Ok(()) => Ok(()),
            Err(Failed) => Err(self.faults.rise()),
        }
    }

    fn sync(&mut self) -> Result<(), Failed>
        ensures guarded { IsGuarded D.Disk self.old self.new result }

        ensures durable { OnOk result (IfSome (D.reads self.old.disk) (λ file. IsOnlyImage file (D.may_leave self.new.disk))) }
        ensures end { D.end self.new.disk ≡ D.end self.old.disk }
        ensures still { WritesNothing (D.reads self.old.disk) (D.reads self.new.disk) (D.may_leave self.old.disk) (D.may_leave self.new.disk) }
        ensures time { TimePasses (D.clock self.old.disk) (D.clock self.new.disk) (D.may_have_left_since self.old.disk) (D.may_have_left_since self.new.disk) (D.may_leave self.new.disk) }
        ensures cause { HasCause self.old.faults self.new.faults result }
    {
        self.enter()?;
        match self.disk.sync() {
            Ok(()) => Ok(()),
            Err(Failed) => Err(self.faults.rise()),
        }
    }
}
