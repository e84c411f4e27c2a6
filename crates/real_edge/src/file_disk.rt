//! A disk over one file of the system.

ghost use Rattle.std.specs.Prelude.{◌≡◌, ◌≤◌, ◌<◌, ◌+◌, ◌^◌, ◌||◌, ⊤, None, true, false, length, max, is_err, IfOk, OnOk, OnErr, IsErr, IsTrue};
ghost use Rattle.device_faults.specs.Faults.{HasCause, Rose, counted};
ghost use Rattle.jp_disk.specs.Reading.{IsReadCount};

use device_faults::{Failed, Faults};
use edge_files::{StoreFile, StorePaths, StoreUse};
use jp_disk::Disk;
use std::marker::Model;
use std::random::RandomSource;
use std::rt::Files;

/// A disk over the file at a path, which is opened when it is first needed.
///
/// A file that is no store, and a store with bytes that changed since they were written, is refused: each call fails.
///
/// A file that is missing has length 0, and the first write makes it. The first sync of a file that is there syncs the
/// folder too, so that a power cut cannot lose the name of a file that was just made. One that may be read and not
/// written can be read and synced; a write to it fails.
///
/// After a write or a sync that failed every sync fails: of a file whose bytes were not written, the system may answer
/// the next sync as if they had been.
///
/// It tells contracts the length that it knows, whether a write or a sync has failed, and its faults. Of a crash it says
/// that it may leave anything: no contract can say what a real file keeps.
#[derive(Drop)]
pub struct FileDisk<'a, R: Files> {
    file: StoreFile<'a, R>,
    end: u64,
    // Whether a write or a sync has failed: from then on no sync can tell what is on the disk.
    has_failed: bool,
    faults: Faults,
}

impl<'a, R: Files> Model for FileDisk<'a, R> {
    ghost use Rattle.real_edge.specs.FileDisk.{DiskState};

    ghost Value = { DiskState };

    ghost view = { λ disk. record { end = disk.end; has_failed = disk.has_failed; faults = disk.faults } };
}

impl<'a, R: Files> FileDisk<'a, R> {
    /// A disk over the file at this path, whatever is in it. Nothing is opened yet, and no call has failed.
    pub fn new(rt: &'a R, path: String) -> Self
        ensures { result ≡ record { end = 0; has_failed = false; faults = 0 } }
    {
        FileDisk::over(StoreFile::plain(rt, path))
    }

    /// A disk over a store, which is opened for this use at the first call (see [`StoreFile`]). Nothing is opened yet, and
    /// no call has failed.
    pub fn of_store(rt: &'a R, paths: StorePaths, how: StoreUse) -> Self
        ensures { result ≡ record { end = 0; has_failed = false; faults = 0 } }
    {
        FileDisk::over(StoreFile::new(rt, paths, how))
    }

    fn over(file: StoreFile<'a, R>) -> Self
        ensures { result ≡ record { end = 0; has_failed = false; faults = 0 } }
    {
        FileDisk {
            file,
            end: 0,
            has_failed: false,
            faults: Faults::new(),
        }
    }
}

impl<R: Files> FileDisk<'_, R> {
    // A write or a sync failed.
    fn fail(&mut self) -> Failed
        ensures failed { self.new ≡ record self.old { has_failed = true; faults = counted self.old.faults } }
        ensures rose { Rose self.old.faults self.new.faults }
    {
        self.has_failed = true;
        self.faults.rise()
    }
}

impl<R: Files + AllocGlobal + Eprint + RandomSource> Disk for FileDisk<'_, R> {
    ghost end = { λ disk. disk.end };

    ghost reads = { λ _. None };

    ghost may_leave = { λ _ _. ⊤ };

    ghost clock = { λ _. 0 };

    ghost may_have_left_since = { λ _ _ _. ⊤ };

    ghost faults = { λ disk. disk.faults };

    ghost told_end = { λ _. tt };

    ghost told_image = { λ _. tt };

    ghost counts_now = { λ _ _ _ _ _. tt };

    ghost only_now = { λ _ _ _. tt };

    /// As the trait says. Beside it, in each of these calls: a write or a sync that failed is remembered (`memory`), and
    /// from then on every sync fails (`refused`).
    fn len(&mut self) -> Result<u64, Failed>
        ensures memory { self.new.has_failed ≡ self.old.has_failed }

        ensures length { IfOk result (λ n. n ≡ self.new.end) }
        ensures end { OnErr result (self.new.end ≡ self.old.end) }
        ensures cause { HasCause self.old.faults self.new.faults result }
    {
        match self.file.len() {
            Ok(len) => {
                self.end = len;
                Ok(len)
            }
            Err(_) => Err(self.faults.rise()),
        }
    }

    fn read_at(&mut self, at: u64, buf: &mut [u8]) -> Result<usize, Failed>
        ensures memory { self.new.has_failed ≡ self.old.has_failed }

        ensures count { IfOk result (IsReadCount self.old.end at buf.old) }
        ensures end { self.new.end ≡ self.old.end }
        ensures cause { HasCause self.old.faults self.new.faults result }
    {
        if at >= self.end || buf.is_empty() {
            return Ok(0);
        }
        match self.file.read_at(at, buf) {
            Ok(count) if count > 0 => Ok(count),
            _ => Err(self.faults.rise()),
        }
    }

    fn write_at(&mut self, at: u64, bytes: &[u8]) -> Result<(), Failed>
        requires within { at ≤ self.old.end }
        requires room { at + length bytes.now < 2 ^ 64 }
        ensures memory { self.new.has_failed ≡ (self.old.has_failed || is_err result) }

        ensures end { OnOk result (self.new.end ≡ max self.old.end (at + length bytes.now)) }
        ensures no_shorter { self.old.end ≤ self.new.end }
        ensures cause { HasCause self.old.faults self.new.faults result }
    {
        match self.file.write_at(at, bytes) {
            Ok(()) => {
                self.end = self.end.max(at + bytes.len() as u64);
                Ok(())
            }
            Err(_) => Err(self.fail()),
        }
    }

    fn sync(&mut self) -> Result<(), Failed>
        ensures refused { IsTrue self.old.has_failed → IsErr result }
        ensures memory { self.new.has_failed ≡ (self.old.has_failed || is_err result) }

        ensures end { self.new.end ≡ self.old.end }
        ensures cause { HasCause self.old.faults self.new.faults result }
    {
        if self.has_failed {
            return Err(self.faults.rise());
        }
        match self.file.sync() {
            Ok(()) => Ok(()),
            Err(_) => Err(self.fail()),
        }
    }
}
