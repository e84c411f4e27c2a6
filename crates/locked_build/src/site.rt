//! The state of one life of a saved build.
ghost use Rattle.std.specs.Prelude.{◌≡◌, ◌++◌, [], ◌∷◌, List, ℕ, length, true, false, is_some, None, Some, IfOk, IfErr};
ghost use Rattle.durable_build.specs.Lower.build_core.Builds.{setting_in};
ghost use Rattle.durable_build.specs.Lower.build_core.Phases.{has_begun};
ghost use Rattle.durable_build.specs.Lower.build_images.Images.{image_in};
ghost use Rattle.durable_build.specs.Standing.{IsWhole, Kept};
ghost use Rattle.locked_build.specs.Facts.{Facts, IsSite};
ghost use Rattle.locked_build.specs.Grants.{Grants, OpenRefuses};
ghost use Rattle.locked_build.specs.Histories.{kept_fault};
ghost use Rattle.locked_build.specs.Says.{stopped_reply};

use crate::ask::{Ask, Entry, History, Progress, Reply};
use crate::claims::{claim, inputs, progress};
use crate::hearing::hear;
use crate::indexed::IndexedHistory;
use crate::taking::{grant_all, note_want, take_all};
use agent_worker::{Claim, Inputs};
use durable_build::DurableBuild;
use durable_build::build_core::Build;
use durable_build::saved_thread::SavedThread;
use journal_core::TakeFault;
use jp_disk::Disk;
use program_lock::Stepped;
use std::alloc::Global;
use std::snapshot::Snapshot;

/// One life of a saved build: the build over its disk, and the history of what was asked of it.
///
/// For contracts its base is the build over the disk as [`SiteState::open`] left it, of which no byte is kept.
#[derive(Drop)]
pub struct SiteState<D: Disk, R: SavedThread + Drop> {
    alloc: Global,
    durable: DurableBuild<D, R>,
    base: Snapshot<DurableBuild<D, R>>,
    history: IndexedHistory,
    ghost stands: { ∥ IsSite D.Disk R.stance base.value durable history.items history.capacity ∥₁ },
}

impl<D: Disk, R: SavedThread + Drop> SiteState<D, R> {
    /// The state of a build that has begun, behind the grants that a stop may have left out. Its history is empty: these grants
    /// are not part of it.
    ///
    /// # Errors
    ///
    /// Each hands the disk back. `Disk` and `Full` come exactly as `DurableBuild::take` answers them for one of these grants,
    /// `Full` with the numbers of the record that is due for that grant, and the disk's count of faults rises at `Disk` alone. `Memory` where the
    /// memory was refused: before anything was written, or for one of these grants, of which nothing was written then. `Stopped`
    /// never comes.
    pub fn open(
        alloc: Global,
        durable: DurableBuild<D, R>,
    ) -> Result<SiteState<D, R>, (TakeFault, D)>
        requires running { durable.stopped ≡ false }
        requires begun { has_begun durable.build.phase ≡ true }
        ensures fresh { IfOk result (λ s. (s.history.items ≡ []) × (s.base.value ≡ s.durable)) }
        ensures grants { IfOk result (λ s. (made : List Entry) × Grants R.stance durable.build made × (kept_fault made ≡ None)
            × Facts D.Disk R.stance durable s.durable made) }
        ensures refused { IfErr result (λ e. (made : List Entry) × (now : Kept D R) × OpenRefuses R.stance durable now made e.0
            × Facts D.Disk R.stance durable now made × (e.1 ≡ now.journal.disk)) }
    {
        let mut durable = durable;
        let mut made = IndexedHistory::new(alloc);
        if made.reserve(1).is_err() {
            return Err((TakeFault::Memory, durable.close()));
        }
        let mut history = IndexedHistory::new(alloc);
        if history.reserve(1).is_err() {
            return Err((TakeFault::Memory, durable.close()));
        }
        grant_all(alloc, &mut durable, &mut made);
        if let Some(fault) = made.fault() {
            return Err((fault, durable.close()));
        }
        let base = Snapshot::of(&durable);
        Ok(SiteState {
            alloc,
            durable,
            base,
            history,
        })
    }

    /// The build. While no fault is kept its image is whole: [`DurableBuild::open`] goes on from it. Where one is kept it is open
    /// what it gives.
    pub fn build(&self) -> &Build<R>
        ensures build { result.now ≡ self.now.durable.build }
        ensures whole { self.now.durable.stopped ≡ false → has_begun self.now.durable.build.phase ≡ true
            → IsWhole (setting_in self.now.durable.build) (image_in R.stance self.now.durable.build) }
        ensures known { ∥ IsSite D.Disk R.stance self.now.base.value self.now.durable self.now.history.items self.now.history.capacity ∥₁ }
    {
        self.durable.build()
    }

    /// How many records the journal has: one for each event that the build has accepted, while no fault is kept. Behind a fault
    /// the build may have accepted one event more, or the journal may have one record more. It needs no memory.
    pub fn records(&self) -> u64
        ensures { result ≡ self.now.durable.records }
    {
        self.durable.records()
    }

    /// What happened since the opening.
    pub fn history(&self) -> &[Entry]
        ensures { result.now ≡ self.now.history.items }
    {
        self.history.entries()
    }

    /// The fault that stopped it.
    pub fn fault(&self) -> Option<TakeFault>
        ensures { result ≡ kept_fault self.now.history.items }
    {
        self.history.fault()
    }

    /// The disk, and what happened since the opening. What was known of the state is known of them.
    pub fn close(self) -> (D, History)
        ensures disk { result.0 ≡ self.durable.journal.disk }
        ensures history { result.1.items ≡ self.history.items }
        ensures known { ∥ IsSite D.Disk R.stance self.base.value self.durable self.history.items self.history.capacity ∥₁ }
    {
        let SiteState {
            alloc: _,
            durable,
            base: _,
            history,
        } = self;
        (durable.close(), history.into_entries())
    }
}

/// What is said to an ask where a fault is kept.
fn stopped(ask: Ask) -> Reply
    ensures { result ≡ stopped_reply ask }
{
    match ask {
        Ask::Take(_) => Reply::Taken(Err(TakeFault::Stopped)),
        Ask::Claim(_) => Reply::Claimed(Claim::Stopped),
        Ask::Inputs => Reply::Inputs(Inputs {
            waiting: 0,
            busy: 0,
        }),
        Ask::Answer(_) => Reply::Heard(Err(TakeFault::Stopped)),
        Ask::Look => Reply::Progress(Progress {
            ended: false,
            stopped: true,
            tasks: 0,
            waiting: 0,
        }),
        Ask::Halt => Reply::Halted,
    }
}

impl<D: Disk, R: SavedThread + Drop> Stepped for SiteState<D, R> {
    type Ask = Ask;

    type Entry = Entry;

    type Reply = Reply;

    type Base = Snapshot<DurableBuild<D, R>>;

    ghost use Rattle.locked_build.specs.Says.{Says};

    ghost base = { λ s. s.base };

    ghost history = { λ s. s.history.items };

    ghost answers = { λ base history ask reply new. Says R.stance base.value.build history ask reply new };

    fn step(&mut self, ask: Ask) -> Reply {
        if self.history.fault().is_some() {
            return stopped(ask);
        }
        match ask {
            Ask::Take(event) => Reply::Taken(take_all(
                self.alloc,
                &mut self.durable,
                &mut self.history,
                event,
            )),
            Ask::Claim(executor) => Reply::Claimed(claim(
                self.alloc,
                self.durable.build().requests(),
                &mut self.history,
                executor,
            )),
            Ask::Inputs => Reply::Inputs(inputs(self.durable.build(), &self.history)),
            Ask::Answer(line) => Reply::Heard(hear(
                self.alloc,
                &mut self.durable,
                &mut self.history,
                line,
            )),
            Ask::Look => Reply::Progress(progress(self.durable.build())),
            Ask::Halt => {
                note_want(&mut self.history);
                Reply::Halted
            }
        }
    }

    fn len(&self) -> u64 {
        self.history.entries().len() as u64
    }
}
