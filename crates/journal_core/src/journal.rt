// A journal, and its calls.
ghost use Rattle.std.specs.Prelude.{◌≡◌, ◌≢◌, ◌⊎◌, ◌≤◌, ◌<◌, ◌+◌, ◌^◌, ◌++◌, [], ◌∷◌, List, ℕ, length, true, false, IfOk, OnOk, Some, MatchResult, slice_get, slice_index, IsErrOf, vec_len};
ghost use Rattle.std.specs.List.{All};
ghost use Rattle.jp_disk.specs.Images.{after_write};
ghost use Rattle.jp_disk.specs.Runs.{AtEachMoment};
ghost use Rattle.device_faults.specs.Faults.{CountsFault};
ghost use Rattle.journal_core.specs.Records.{records, Has, HasWithOrWithout};
ghost use Rattle.journal_core.specs.State.{Holds};
ghost use Rattle.journal_core.specs.Moments.{OnlyReads, SinceSync};
ghost use Rattle.journal_core.specs.Answers.{AppendAnswers, AppendLeaves, entries_of, Opens, OpenRefuses, StandInTurn, IsStarted, CreateRefuses};

use crate::head::read_exact;
use crate::prepare::prepare;
use crate::record::{spell, write_record};
use crate::walk::load;
use crate::{AppendFault, CreateFault, OpenFault, ReadFault, Record};
use jp_disk::{Bytes, Disk};
use std::alloc::{AllocError, Global};
use std::marker::Model;

/// The most bytes that a journal may have.
const MAX_LENGTH: u64 = 1 << 30;

/// A journal of records over a disk that nobody else writes. Its length is the place of its last gate plus 1; what
/// the file has behind that gate counts for nothing.
#[derive(Drop)]
pub struct Journal<D: Disk> {
    disk: D,
    len: u64,
    stopped: bool,
}

impl<D: Disk> Model for Journal<D> {
    ghost use Rattle.std.specs.Prelude.{◌≤◌, ◌<◌};
    ghost use Rattle.journal_core.specs.State.{State};

    ghost Value = { State D };

    ghost view = { λ j. record { disk = j.disk; len = j.len; stopped = j.stopped } };

    ghost invariant = { λ j. (0 < j.len) × (j.len ≤ D.end j.disk) };
}

impl<D: Disk> Journal<D> {
    /// A journal with no record, of length 1, over a file that has none. It syncs, and where the file is empty, or
    /// under six bytes with byte 0 equal to 1, writes byte 0 as 0 and syncs. Any other file without a record stays
    /// as it is. It needs no memory.
    ///
    /// The error hands the disk back. `HasRecord` comes exactly where byte 0 is 1 and the file has six bytes or more,
    /// and then nothing is changed; `Disk` only where the disk's count of faults rose, which it does at no other answer.
    ///
    /// A crash up to the first sync leaves what it might have left before, and from then on the records that the file
    /// had.
    pub fn create(disk: D) -> Result<Journal<D>, (CreateFault, D)>
        ensures created { (file : List ℕ) → D.reads disk ≡ Some file → MatchResult result
            (λ journal. ¬ IsStarted file × Has [] file × Holds D.Disk journal [])
            (λ e. CreateRefuses D.Disk file e.1 e.0) }
        ensures same { (file : List ℕ) → D.reads disk ≡ Some file → 0 < length file → slice_index file 0 ≢ 1
            → IfOk result (λ journal. D.reads journal.disk ≡ Some file) }
        ensures closed { (file : List ℕ) → D.reads disk ≡ Some file → (file ≡ []) ⊎ (slice_index file 0 ≡ 1)
            → IfOk result (λ journal. D.reads journal.disk ≡ Some (after_write file 0 (0 ∷ []))) }
        ensures fresh { IfOk result (λ journal. (journal.len ≡ 1) × (journal.stopped ≡ false)) }
        ensures any_moment { (file : List ℕ) → D.reads disk ≡ Some file → MatchResult result
            (λ journal. SinceSync D.Disk file disk journal.disk (λ image. records image ≡ records file))
            (λ e. SinceSync D.Disk file disk e.1 (λ image. records image ≡ records file)
            ⊎ ((e.0 ≡ CreateFault.Disk) × AtEachMoment D.Disk disk e.1 (D.may_leave disk))) }
        ensures cause { MatchResult result
            (λ journal. CountsFault (D.faults disk) (D.faults journal.disk) ⊥)
            (λ e. CountsFault (D.faults disk) (D.faults e.1) (e.0 ≡ CreateFault.Disk)) }
    {
        let mut disk = disk;
        match prepare(&mut disk) {
            Ok(()) => Ok(Journal {
                disk,
                len: 1,
                stopped: false,
            }),
            Err(fault) => Err((fault, disk)),
        }
    }

    /// The journal of a file with records, and where each of them stands, in order: one behind the other, the first
    /// gate at 0, on each disk, whether it tells its bytes or not. It syncs, and then reads the gate
    /// and the length of each record, five bytes at a time, and no payload. It writes nothing and repairs nothing, and
    /// needs memory for the list of records alone.
    ///
    /// The error hands the disk back. `Empty` comes exactly where the file has no record; `Damaged` exactly where a
    /// record does not end in the file, with the place of its gate; `Disk` only where the disk's count of faults rose,
    /// which it does at no other answer. A crash leaves what it might have left before.
    pub fn open(alloc: Global, disk: D) -> Result<(Journal<D>, Vec<Record>), (OpenFault, D)>
        ensures found { (file : List ℕ) → D.reads disk ≡ Some file → MatchResult result
            (λ found. Opens D.Disk file found.0.disk found.0.len found.1.items)
            (λ e. OpenRefuses file e.0 × (D.reads e.1 ≡ Some file)) }
        ensures told { (file : List ℕ) → D.reads disk ≡ Some file → IfOk result (λ found. D.reads found.0.disk ≡ Some file) }
        ensures running { IfOk result (λ found. found.0.stopped ≡ false) }
        ensures some { IfOk result (λ found. 0 < vec_len found.1) }
        ensures in_turn { IfOk result (λ found. StandInTurn 0 found.1.items found.0.len) }
        ensures each { IfOk result (λ found. All (λ entry. entry.at + 5 + entry.len < found.0.len) found.1.items) }
        ensures any_moment { MatchResult result
            (λ found. AtEachMoment D.Disk disk found.0.disk (D.may_leave disk))
            (λ e. AtEachMoment D.Disk disk e.1 (D.may_leave disk)) }
        ensures cause { MatchResult result
            (λ found. CountsFault (D.faults disk) (D.faults found.0.disk) ⊥)
            (λ e. CountsFault (D.faults disk) (D.faults e.1) (e.0 ≡ OpenFault.Disk)) }
    {
        let mut disk = disk;
        match load(alloc, &mut disk) {
            Ok((len, entries)) => {
                let journal = Journal {
                    disk,
                    len,
                    stopped: false,
                };
                Ok((journal, entries))
            }
            Err(fault) => Err((fault, disk)),
        }
    }

    /// The payload of a record that `open` gave. It writes nothing. `Disk` comes only where the disk's count of faults
    /// rose, which it does at no other answer.
    pub fn read(&mut self, alloc: Global, entry: Record) -> Result<Bytes, ReadFault>
        requires { entry.at + 5 + entry.len < self.old.len }
        ensures payload { (payloads : List (List ℕ)) (k : ℕ) → Holds D.Disk self.old payloads
            → slice_get (entries_of 0 payloads) k ≡ Some entry → IfOk result (λ bytes. slice_get payloads k ≡ Some bytes) }
        ensures length { IfOk result (λ bytes. length bytes ≡ entry.len) }
        ensures quiet { OnlyReads D.Disk self.old.disk self.new.disk }
        ensures same { (self.new.len ≡ self.old.len) × (self.new.stopped ≡ self.old.stopped) }
        ensures cause { CountsFault (D.faults self.old.disk) (D.faults self.new.disk) (IsErrOf result ReadFault.Disk) }
    {
        let Ok(mut bytes) = zeros(alloc, entry.len as usize) else {
            return Err(ReadFault::Memory);
        };
        let Ok(()) = read_exact(&mut self.disk, entry.at + 5, &mut bytes) else {
            return Err(ReadFault::Disk);
        };
        Ok(Bytes::from_vec(bytes))
    }

    /// Adds a record, and answers the new length of the journal. At `Ok` the record is durable: each crash from then
    /// on leaves a file that has it. It makes four calls of the disk: it writes the length of the payload, the payload
    /// and a closed gate behind the last gate; syncs; writes 1 at the last gate; syncs.
    ///
    /// `Stopped` comes exactly where an earlier append on this journal answered `Disk`; else `Full` exactly where the
    /// length and what the record adds, 5 and the bytes of the payload, are more than 1,073,741,824 together; `Disk`
    /// only where the disk's count of faults rose, which it does at no other answer. `Memory`, `Full` and `Stopped` change
    /// nothing, and no call of the disk was made.
    ///
    /// A crash at any moment of the call leaves a file with the records from before it, or with these and the new one.
    pub fn append(&mut self, alloc: Global, payload: &[u8]) -> Result<u64, AppendFault>
        ensures answers { AppendAnswers self.old.stopped self.old.len (5 + length payload.now) result }
        ensures leaves { AppendLeaves self.old self.new result }
        ensures acknowledged { (payloads : List (List ℕ)) → Holds D.Disk self.old payloads
            → OnOk result (Holds D.Disk self.new (payloads ++ payload.now ∷ [])) }
        ensures any_moment { (payloads : List (List ℕ)) → Holds D.Disk self.old payloads
            → AtEachMoment D.Disk self.old.disk self.new.disk (HasWithOrWithout payloads payload.now) }
        ensures cause { CountsFault (D.faults self.old.disk) (D.faults self.new.disk) (IsErrOf result AppendFault.Disk) }
    {
        if self.stopped {
            return Err(AppendFault::Stopped);
        }
        let len = self.len;
        let add = 5 + payload.len() as u64;
        if add > MAX_LENGTH || len > MAX_LENGTH - add {
            return Err(AppendFault::Full { len, add });
        }
        let Ok(block) = spell(alloc, payload) else {
            return Err(AppendFault::Memory);
        };
        if let Err(_) = write_record(&mut self.disk, len - 1, &block) {
            self.stopped = true;
            return Err(AppendFault::Disk);
        }
        self.len = len + add;
        Ok(self.len)
    }

    /// The length of the journal in bytes: the place of its last gate plus 1.
    pub fn len(&self) -> u64
        ensures { result ≡ self.now.len }
    {
        self.len
    }

    /// The disk. It needs no memory.
    pub fn close(self) -> D
        ensures { result ≡ self.disk }
    {
        self.disk
    }
}

fn zeros(alloc: Global, n: usize) -> Result<Vec<u8>, AllocError>
    ensures { IfOk result (λ bytes. length bytes.items ≡ n) }
{
    vec![in alloc; 0; n]
}
