//! The sums beside a store, by which bytes that changed since they were written are found.

ghost use Rattle.std.specs.Prelude.{◌≡◌, ◌++◌};
ghost use Rattle.edge_files.specs.Sums.{sums_head};

use crate::file_at_path::FileAtPath;
use crate::identity::BuildId;
use crate::records::{Sum, Walk};
use std::rt::Files;
use std::{fs, io};

/// What the file of the sums begins with, in front of the bits of its build.
const MARK: [u8; 16] = *b"controller sums\n";

/// The bytes of the head, and of each sum behind it: none crosses a sector of a disk, so each is whole or not there.
const LENGTH: u64 = 32;

/// Why the sums of a store do not stand for what is in it.
#[derive(Debug, Drop)]
pub enum SumFault {
    /// The record at this place has other bytes than those of which the sum was taken.
    Changed(u64),
    /// The store or its sums cannot be read.
    Io(io::Error),
}

impl From<io::Error> for SumFault {
    fn from(error: io::Error) -> SumFault {
        SumFault::Io(error)
    }
}

/// The file of a build that has a sum for each record of its store (docs/FORMATS.md).
///
/// A sum is written once its record is durable, and is not synced: behind a crash there may be fewer sums than records, and
/// zeros in the place of some. So a sum that is there is that of its record.
#[derive(Drop)]
pub struct RecordSums<'a, R: Files> {
    files: &'a R,
    file: FileAtPath<'a, R>,
    build: BuildId,
    // Behind the last record of which the sum is known.
    walk: Walk,
    // The gate that was opened last, of whose record no sum was written yet.
    opened: Option<u64>,
    // Whether sums are kept: not for whoever only reads, and not behind a write that failed.
    is_kept: bool,
}

impl<'a, R: Files> RecordSums<'a, R> {
    /// The sums of this build's store in the file at this path. Where they `may_change`, those of further records are
    /// written to it.
    pub fn new(files: &'a R, path: String, build: BuildId, may_change: bool) -> Self {
        RecordSums {
            files,
            file: FileAtPath::new(files, path),
            build,
            walk: Walk::new(),
            opened: None,
            is_kept: may_change,
        }
    }

    /// Compares each record of the store with its sum, and answers how many records have none; these are made where sums
    /// are kept.
    ///
    /// # Errors
    ///
    /// [`SumFault::Changed`] where a record's sum is another one than that kept, or a sum is kept of a record behind a closed
    /// gate; and where a file cannot be read. A store that is cut short is damaged, and its reader says so.
    pub fn check(&mut self, store: &mut FileAtPath<'_, R>) -> Result<u64, SumFault> {
        // Read first: of each sum that is there now the record is durable.
        let kept = self.count()?;
        let lacking = self.compare(store, kept)?;
        if !self.walk.is_cut_short(store)? {
            self.expect_none_behind(kept)?;
        }
        if self.is_kept && lacking > 0 {
            self.make_anew(store)?;
        }
        Ok(lacking)
    }

    /// Notes what is written to the store: a gate is opened by one byte.
    pub fn note(&mut self, at: u64, bytes: &[u8]) {
        if bytes.len() == 1 {
            self.opened = Some(at);
        }
    }

    /// Writes the sum of the record whose gate was opened since the last call. Where that fails, no more sums are kept.
    pub fn follow(&mut self, store: &mut FileAtPath<'_, R>) {
        let Some(gate) = self.opened.take() else {
            return;
        };
        if self.is_kept && self.add(store, gate).is_err() {
            self.is_kept = false;
        }
    }

    // How many sums the file has room for; 0 where it is none of this build.
    fn count(&mut self) -> io::Result<u64> {
        let mut head = [0u8; 32];
        let count = self.file.read_at(0, &mut head)?;
        if count < 32 || head != head_of(&self.build) {
            return Ok(0);
        }
        Ok(self.file.len()? / LENGTH)
    }

    // Walks over all records, and counts those without a sum.
    fn compare(&mut self, store: &mut FileAtPath<'_, R>, kept: u64) -> Result<u64, SumFault> {
        let mut lacking = 0u64;
        for _ in 0..u64::MAX {
            let at = self.walk.at;
            if !self.walk.step(store)? {
                break;
            }
            match self.kept_of(self.walk.records, kept)? {
                Some(sum) if sum != self.walk.sum => return Err(SumFault::Changed(at)),
                Some(_) => {}
                None => lacking = lacking.saturating_add(1),
            }
        }
        Ok(lacking)
    }

    // Behind the last record there is no sum.
    fn expect_none_behind(&mut self, kept: u64) -> Result<(), SumFault> {
        for record in self.walk.records..kept {
            if self.kept_of(record.saturating_add(1), kept)?.is_some() {
                return Err(SumFault::Changed(self.walk.at));
            }
        }
        Ok(())
    }

    // The sum that is kept of the record of this number, counted from 1.
    fn kept_of(&mut self, record: u64, kept: u64) -> io::Result<Option<Sum>> {
        if record >= kept {
            return Ok(None);
        }
        let mut sum = [0u8; 32];
        let count = self.file.read_at(record.saturating_mul(LENGTH), &mut sum)?;
        Ok(if count < 32 || sum == [0; 32] {
            None
        } else {
            Some(sum)
        })
    }

    // Writes the head and the sum of each record into a new file.
    fn make_anew(&mut self, store: &mut FileAtPath<'_, R>) -> io::Result<()> {
        self.begin()?;
        self.walk = Walk::new();
        self.add(store, u64::MAX)
    }

    /// Begins the file anew, without a sum.
    ///
    /// # Errors
    ///
    /// Those of removing and writing it.
    pub fn begin(&mut self) -> io::Result<()> {
        self.file.remove()?;
        self.file.write_at(0, &head_of(&self.build))
    }

    // Writes the sums of the records up to the one behind this gate.
    fn add(&mut self, store: &mut FileAtPath<'_, R>, gate: u64) -> io::Result<()> {
        for _ in 0..u64::MAX {
            if self.walk.at > gate || !self.walk.step(store)? {
                break;
            }
            let place = self.walk.records.saturating_mul(LENGTH);
            self.file.write_at(place, &self.walk.sum)?;
        }
        Ok(())
    }
}

// What the file of this build's sums begins with.
fn head_of(build: &BuildId) -> [u8; 32]
    ensures { result ≡ sums_head build.now.bits }
{
    let mut head = [0u8; 32];
    head[..16].copy_from_slice(&MARK);
    head[16..].copy_from_slice(&build.bits);
    head
}
