// A disk in memory. It keeps each call, and so all that a crash might have left at each moment.
ghost use Rattle.std.specs.Prelude.{◌≡◌, ◌+◌, ◌-◌, ◌%◌, [], length, None};
ghost use Rattle.jp_disk.specs.Medium.{MayLeave};
ghost use Rattle.jp_disk.specs.History.{medium, begun};

use crate::tear::crash_image;
use crate::{Bytes, Call, Numbers};
use std::alloc::Global;
use std::marker::Model;

mod device;
mod steps;

/// A disk in memory that can fail, stop and crash, for tests.
///
/// It keeps every call with its arguments and whether it was done, so that what a crash might have left at each
/// moment is known. A write that is to fail is done all the same, and pending.
#[derive(Drop)]
pub struct MemoryDisk {
    alloc: Global,
    // The bytes at the beginning; None until the first write.
    first: Option<Bytes>,
    // The bytes at the last sync that was done; None until the first write.
    synced: Option<Bytes>,
    bytes: Bytes,
    calls: Vec<Call>,
    // How many calls there were up to the last sync that was done.
    settled: usize,
    fail_at: Numbers,
    stop_at: Option<u64>,
    made: u64,
    faults: u64,
    refused: u64,
}

impl Model for MemoryDisk {
    ghost use Rattle.std.specs.Prelude.{unwrap_or};
    ghost use Rattle.jp_disk.specs.History.{History, IsInStep};

    ghost Value = { History };

    ghost view = { λ d. record { first = unwrap_or d.first d.bytes; calls = d.calls.items; fail_at = d.fail_at; stop_at = d.stop_at; made = d.made; faults = d.faults; refused = d.refused } };

    ghost invariant = { λ d. IsInStep d.first d.synced d.bytes d.calls.items d.settled };
}

impl MemoryDisk {
    /// A disk with these bytes, all of them durable. The calls whose numbers are listed fail, and so do call
    /// `stop_at` and each after it; the first call is number 1. No other call fails, but for want of memory.
    pub fn new(bytes: Bytes, fail_at: Numbers, stop_at: Option<u64>) -> MemoryDisk
        ensures { result ≡ begun bytes fail_at stop_at }
    {
        let bytes = bytes.into_vec();
        let alloc = *bytes.allocator();
        MemoryDisk {
            alloc,
            first: None,
            synced: None,
            bytes: Bytes::from_vec(bytes),
            calls: Vec::new(alloc),
            settled: 0,
            fail_at,
            stop_at,
            made: 0,
            faults: 0,
            refused: 0,
        }
    }

    /// What a read gives.
    pub fn bytes(&self) -> &[u8]
        ensures { result.now ≡ (medium self.now).reads }
    {
        self.bytes.as_slice()
    }

    /// The calls that were made, but for those that memory was refused for.
    pub fn calls(&self) -> &[Call]
        ensures { result.now ≡ self.now.calls }
    {
        &self.calls
    }

    /// How many calls failed, up to `u64::MAX`.
    pub fn faults(&self) -> u64
        ensures { result ≡ self.now.faults }
    {
        self.faults
    }

    /// How many calls failed because memory for them was refused, up to `u64::MAX`.
    pub fn refused(&self) -> u64
        ensures { result ≡ self.now.refused }
    {
        self.refused
    }
}

impl MemoryDisk {
    /// The disk after a crash: a new one, with no call and none that is to fail, of one of the images that this one
    /// may leave. Choice 0 is what a read gives. Else the choice is a row of digits, the lowest first:
    ///
    /// | digit | below | says |
    /// |---|---|---|
    /// | lost end | bytes written past the old end, plus 1 | how many bytes are lost at the end of the file |
    /// | order | 2 | whether the pending writes land in the order of the calls (0) or backwards (1) |
    ///
    /// and then for each call since the last sync that was done, in that order, where it is a write (a failed one
    /// too):
    ///
    /// | digit | below | says |
    /// |---|---|---|
    /// | missing | length of the write, plus 1 | how many of its bytes do not land: 0 of a write that is kept, all of one that is lost |
    /// | side | 2 | whether these are at its end (0) or its front (1) |
    /// | garbage | 4 | whether they stay as they were (0), or become 0 (1), 1 (2) or 255 (3) |
    ///
    /// What stays as it was is what earlier landings left, and else the byte of the last sync, or 0 past the old end.
    /// Choices that differ by a multiple of the product of all bounds give one image.
    pub fn crash(self, choice: u64) -> MemoryDisk
        ensures image { MayLeave (medium self) result.first }
        ensures fresh { result ≡ begun result.first [] None }
        ensures clean { choice ≡ 0 → result.first ≡ (medium self).reads }
        ensures lost_end { length result.first + choice % (1 + length (medium self).reads - length (medium self).synced) ≡ length (medium self).reads }
    {
        let alloc = self.alloc;
        let settled = self.settled;
        let calls = self.calls;
        let synced = self.synced;
        let mut image = self.bytes.into_vec();
        if let Some(synced) = &synced {
            crash_image(&mut image, synced.as_slice(), &calls[settled..], choice);
        }
        MemoryDisk::new(Bytes::from_vec(image), Numbers::new(alloc), None)
    }
}
