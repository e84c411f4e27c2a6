//! A build over a disk.
ghost use Rattle.std.specs.Prelude.{◌≡◌, ◌≢◌, ◌⊎◌, ◌<◌, ◌+◌, ◌∷◌, List, [], ℕ, true, false, length, slice_index, IfOk, IfErr, OnOk, Some, MatchResult, IsErrOf};
ghost use Rattle.device_faults.specs.Faults.{CountsFault};
ghost use Rattle.jp_disk.specs.Images.{after_write};
ghost use Rattle.jp_disk.specs.Runs.{AtEachMoment};
ghost use Rattle.journal_core.specs.Records.{records, Has};
ghost use Rattle.journal_core.specs.Moments.{SinceSync};
ghost use Rattle.journal_core.specs.Answers.{CreateRefuses, IsStarted};
ghost use Rattle.model_run.specs.declared.taken.Taken.TheVariants.{Accepted};
ghost use Rattle.model_run.specs.Taking.{taken};
ghost use Rattle.model_run.specs.World as W;
ghost use Rattle.build_images.specs.Lower.build_core.Builds.{StandsFor, setting_in, standing_of};
ghost use Rattle.build_images.specs.Lower.build_core.Phases.{has_begun};
ghost use Rattle.build_images.specs.Images.{image_in, world_image};
ghost use Rattle.store_laws.specs.Store.{IsConsistent};
ghost use Rattle.durable_build.specs.Kinds.{weights_of};
ghost use Rattle.durable_build.specs.Standing.{IsWhole, Keeps};
ghost use Rattle.durable_build.specs.Taking.{IsSized, LeavesWhole, MayStart, TakeAnswers, TakeKeeps, TakeLeaves, TakeSources};
ghost use Rattle.durable_build.specs.Opening.{OpenFails, Opened, StandsWhere};

use crate::faults::StoreFault;
use crate::load::{Loaded, load};
use crate::store::{Last, add, keep_sources, no_record, sources_of, take_event};
use build_images::build_core::Build;
use build_images::saved_thread::SavedThread;
use journal_core::{CreateFault, Journal, OpenFault, TakeFault};
use jp_disk::Disk;
use model_run::{Event, Taken};
use model_text::Bytes;
use std::alloc::Global;
use std::marker::Model;

/// A build over a disk that nobody else writes. The disk has a record for each event that the build has accepted, with the
/// image of the build after it, or with what the event changed of it.
#[derive(Drop)]
pub struct DurableBuild<D: Disk, R: SavedThread> {
    journal: Journal<D>,
    build: Build<R>,
    script: Bytes,
    agents: Bytes,
    last: Last,
    records: u64,
    stopped: bool,
}

impl<D: Disk, R: SavedThread> Model for DurableBuild<D, R> {
    ghost use Rattle.std.specs.Prelude.{◌≡◌, ◌<◌, true, false};
    ghost use Rattle.durable_build.specs.Standing.{BeginsWhole, Kept, Remembers};

    ghost Value = { Kept D R };

    ghost view = { λ d. record { journal = d.journal; build = d.build; script = d.script; agents = d.agents; weights = d.last.weights; records = d.records; stopped = d.stopped } };

    ghost invariant = { λ d. (d.journal.stopped ≡ true → d.stopped ≡ true) × (d.stopped ≡ false → Remembers R.stance d.build d.last.image × BeginsWhole d.last.image d.last.weights) × (d.records < d.journal.len) };
}

impl<D: Disk, R: SavedThread + Drop> DurableBuild<D, R> {
    /// A build that has taken no event, over a disk that has no record. It writes byte 0 as 0 where the file is empty, or
    /// under six bytes with byte 0 equal to 1; any other file without a record stays as it is. It has no script and no agents
    /// file yet.
    ///
    /// # Errors
    ///
    /// Each hands the disk back. `HasRecord` exactly where the disk has a record, or the beginning of one; then nothing is
    /// changed. `Disk` only where the disk's count of faults rose, which it does at no other answer.
    pub fn create(
        alloc: Global,
        disk: D,
        build: Build<R>,
    ) -> Result<DurableBuild<D, R>, (CreateFault, D)>
        requires unbegun { has_begun build.phase ≡ false }
        requires stands { StandsFor R.stance build W.unbegun }
        ensures created { (file : List ℕ) → D.reads disk ≡ Some file → MatchResult result
            (λ d. ¬ IsStarted file × Has [] file × Keeps D.Disk R.stance d [])
            (λ e. CreateRefuses D.Disk file e.1 e.0) }
        ensures same { (file : List ℕ) → D.reads disk ≡ Some file → 0 < length file → slice_index file 0 ≢ 1
            → IfOk result (λ d. D.reads d.journal.disk ≡ Some file) }
        ensures closed { (file : List ℕ) → D.reads disk ≡ Some file → (file ≡ []) ⊎ (slice_index file 0 ≡ 1)
            → IfOk result (λ d. D.reads d.journal.disk ≡ Some (after_write file 0 (0 ∷ []))) }
        ensures fresh { IfOk result (λ d. (d.build ≡ build) × (d.stopped ≡ false) × (d.journal.len ≡ 1)) }
        ensures counts { IfOk result (λ d. (d.weights ≡ weights_of []) × (d.records ≡ 0)) }
        ensures sources { IfOk result (λ d. (d.script ≡ []) × (d.agents ≡ [])) }
        ensures any_moment { (file : List ℕ) → D.reads disk ≡ Some file → MatchResult result
            (λ d. SinceSync D.Disk file disk d.journal.disk (λ image. records image ≡ records file))
            (λ e. SinceSync D.Disk file disk e.1 (λ image. records image ≡ records file)
            ⊎ ((e.0 ≡ CreateFault.Disk) × AtEachMoment D.Disk disk e.1 (D.may_leave disk))) }
        ensures cause { MatchResult result
            (λ d. CountsFault (D.faults disk) (D.faults d.journal.disk) ⊥)
            (λ e. CountsFault (D.faults disk) (D.faults e.1) (e.0 ≡ CreateFault.Disk)) }
    {
        match Journal::create(disk) {
            Ok(journal) => Ok(DurableBuild {
                journal,
                build,
                script: Bytes::new(alloc),
                agents: Bytes::new(alloc),
                last: no_record(),
                records: 0,
                stopped: false,
            }),
            Err(refused) => Err(refused),
        }
    }

    /// The build of a store. It goes on from the image of the last record, whatever the records before the last whole image
    /// say; of these it reads the framing, and the whole of the first, which has the script and the agents file. Where the
    /// records are those of one build from its `Start` on, it is that build. It writes nothing.
    ///
    /// # Errors
    ///
    /// Each hands the disk back. `Empty` exactly where the disk has no record. `Damaged` exactly where a record is cut short;
    /// the first is not that of a `Start` of a script and an agents file without a fault; the last one that begins with 1, or
    /// one behind it, is not in its form, or its changes do not fit the image before; or the image of the last does not pass
    /// the check, or has something left of a build that has ended: with the place of the gate of the first such record, in this
    /// order. So it never comes of a store in which each event was accepted and has the image behind it. `Disk` only where the
    /// disk's count of faults rose, which it does at no other answer. `Memory` where the memory was refused.
    pub fn open(alloc: Global, disk: D) -> Result<DurableBuild<D, R>, (StoreFault, D)>
        ensures opened { (file : List ℕ) → D.reads disk ≡ Some file → MatchResult result
            (λ d. Opened D.Disk R.stance file d × (D.reads d.journal.disk ≡ Some file))
            (λ e. OpenFails file e.0 × (D.reads e.1 ≡ Some file)) }
        ensures undamaged { (file : List ℕ) → D.reads disk ≡ Some file → IsConsistent world_image file → IfErr result (λ e. (at : ℕ) → e.0 ≡ StoreFault.Damaged at → ⊥) }
        ensures running { IfOk result (λ d. d.stopped ≡ false) }
        ensures stands { IfOk result (λ d. StandsWhere R.stance d.build) }
        ensures begun { IfOk result (λ d. has_begun d.build.phase ≡ true) }
        ensures whole { IfOk result (λ d. IsWhole (setting_in d.build) (image_in R.stance d.build)) }
        ensures any_moment { MatchResult result
            (λ d. AtEachMoment D.Disk disk d.journal.disk (D.may_leave disk))
            (λ e. AtEachMoment D.Disk disk e.1 (D.may_leave disk)) }
        ensures cause { MatchResult result
            (λ d. CountsFault (D.faults disk) (D.faults d.journal.disk) ⊥)
            (λ e. CountsFault (D.faults disk) (D.faults e.1) (e.0 ≡ StoreFault.Disk)) }
    {
        match Journal::open(alloc, disk) {
            Ok((journal, entries)) => {
                let mut journal = journal;
                match load(alloc, &mut journal, &entries) {
                    Ok(loaded) => {
                        let Loaded {
                            script,
                            agents,
                            build,
                            last,
                        } = loaded;
                        Ok(DurableBuild {
                            journal,
                            build,
                            script,
                            agents,
                            last,
                            records: entries.len() as u64,
                            stopped: false,
                        })
                    }
                    Err(fault) => Err((fault, journal.close())),
                }
            }
            Err((OpenFault::Memory, disk)) => Err((StoreFault::Memory, disk)),
            Err((OpenFault::Disk, disk)) => Err((StoreFault::Disk, disk)),
            Err((OpenFault::Empty, disk)) => Err((StoreFault::Empty, disk)),
            Err((OpenFault::Damaged { at }, disk)) => Err((StoreFault::Damaged { at }, disk)),
        }
    }

    /// Takes an event, and answers as the build does. At `Accepted` the event is durable, with the image of the build after it:
    /// each crash from then on leaves both. A crash during the call leaves the events from before, or these and the new one.
    /// The record holds what changed alone, where the payloads behind the last one with a whole image have together fewer bytes
    /// than that one; else the whole image.
    /// The script and the agents file are those of the accepted `Start`; nothing else changes them.
    ///
    /// # Errors
    ///
    /// After each of them every later call answers `Stopped`, and what the build is then is open. `Stopped` comes nowhere
    /// else. `Full` exactly where an accepted event's record does not fit into the journal, with the
    /// journal's length and what the record adds, 5 and its bytes (`u64::MAX` where it adds more); nothing was spelled for it.
    /// Of an event only the script and the agents file of a `Start` were copied then, which the build is to keep.
    /// `Disk` only of an accepted event whose record fits, and only where the disk's count of faults rose, which it does at no
    /// other answer. `Memory` where the memory was refused. Only `Disk` leaves it open whether the event is on the disk; at the
    /// others nothing was written.
    pub fn take(&mut self, alloc: Global, event: &Event) -> Result<Taken, TakeFault>
        requires may_start { taken (standing_of self.old.build) event.now ≡ Accepted → MayStart (setting_in self.old.build) event.now }
        ensures answers { TakeAnswers R.stance self.old self.new event.now result }
        ensures leaves { TakeLeaves R.stance self.old self.new event.now result }
        ensures sources { TakeSources self.old self.new event.now result }
        ensures size { IsSized R.stance self.old self.new event.now result }
        ensures whole { LeavesWhole R.stance (setting_in self.old.build) self.new.build result }
        ensures setting { OnOk result (setting_in self.new.build ≡ setting_in self.old.build) }
        ensures stands { OnOk result ((w : W.Build) → StandsFor R.stance self.old.build w → StandsFor R.stance self.new.build (W.after_one (setting_in self.old.build) w event.now)) }
        ensures keeps { (payloads : List (List ℕ)) → Keeps D.Disk R.stance self.old payloads
            → TakeKeeps D.Disk R.stance self.old self.new event.now payloads result }
        ensures cause { CountsFault (D.faults self.old.journal.disk) (D.faults self.new.journal.disk) (IsErrOf result TakeFault.Disk) }
    {
        if self.stopped {
            return Err(TakeFault::Stopped);
        }
        let Ok(answer) = take_event(&mut self.build, event) else {
            self.stopped = true;
            return Err(TakeFault::Memory);
        };
        if answer != Taken::Accepted {
            return Ok(answer);
        }
        let Ok(sources) = sources_of(alloc, event) else {
            self.stopped = true;
            return Err(TakeFault::Memory);
        };
        if let Err(fault) = add(
            &mut self.journal,
            alloc,
            &mut self.build,
            event,
            &mut self.last,
        ) {
            self.stopped = true;
            return Err(fault);
        }
        self.records += 1;
        keep_sources(&mut self.script, &mut self.agents, sources);
        Ok(answer)
    }

    /// The build. As long as nothing has stopped it, its image is whole once it has begun: [`DurableBuild::open`] goes on from it.
    /// After a fault of `take` it is open what it gives.
    pub fn build(&self) -> &Build<R>
        ensures is { result.now ≡ self.now.build }
        ensures whole { self.now.stopped ≡ false → has_begun self.now.build.phase ≡ true → IsWhole (setting_in self.now.build) (image_in R.stance self.now.build) }
    {
        &self.build
    }

    /// How many records the journal has: those that were in the store when this `DurableBuild` was created or opened, and one for
    /// each event accepted since. It needs no memory.
    pub fn records(&self) -> u64
        ensures { result ≡ self.now.records }
    {
        self.records
    }

    /// The disk. It needs no memory.
    pub fn close(self) -> D
        ensures { result ≡ self.journal.disk }
    {
        self.journal.close()
    }
}
