//! The build of a store.
ghost use Rattle.std.specs.Prelude.{◌≡◌, ℕ, List, Some, true, false, IfOk, IfErr, MatchResult};
ghost use Rattle.device_faults.specs.Faults.{CountsFault};
ghost use Rattle.jp_disk.specs.Runs.{AtEachMoment};
ghost use Rattle.durable_build.specs.Lower.build_core.Builds.{setting_in};
ghost use Rattle.durable_build.specs.Lower.build_core.Phases.{has_begun};
ghost use Rattle.durable_build.specs.Lower.build_images.Images.{image_in, world_image};
ghost use Rattle.durable_build.specs.Opening.{OpenFails, Opened};
ghost use Rattle.durable_build.specs.Standing.{IsWhole};
ghost use Rattle.model_run.specs.declared.event.Event.{Event as AnEvent};
ghost use Rattle.model_run.specs.State.{Setting};
ghost use Rattle.durable_build.specs.Lower.store_laws.Store.{IsConsistent};
ghost use Rattle.build_store.specs.Lives.{Stands};
ghost use Rattle.build_store.specs.Saved.{Stores};

use durable_build::saved_thread::SavedThread;
use durable_build::{DurableBuild, StoreFault};
use jp_disk::Disk;
use std::alloc::Global;

/// The build of a store, as its last life left it. It writes nothing.
///
/// # Errors
///
/// As [`DurableBuild::open`].
pub fn reopen<D: Disk, R: SavedThread + Drop>(
    alloc: Global,
    disk: D,
) -> Result<DurableBuild<D, R>, (StoreFault, D)>
    ensures stands { (file : List ℕ) → D.reads disk ≡ Some file → MatchResult result
        (λ kept. (D.reads kept.journal.disk ≡ Some file) × ((setting : Setting) (events : List AnEvent) → Stores setting events file
        → Stands D.Disk R.stance setting events kept))
        (λ e. OpenFails file e.0 × (D.reads e.1 ≡ Some file)) }
    ensures opened { (file : List ℕ) → D.reads disk ≡ Some file → IfOk result (Opened D.Disk R.stance file) }
    ensures running { IfOk result (λ kept. kept.stopped ≡ false) }
    ensures begun { IfOk result (λ kept. has_begun kept.build.phase ≡ true) }
    ensures whole { IfOk result (λ kept. IsWhole (setting_in kept.build) (image_in R.stance kept.build)) }
    ensures undamaged { (file : List ℕ) → D.reads disk ≡ Some file → IsConsistent world_image file → IfErr result (λ e. (at : ℕ) → e.0 ≡ StoreFault.Damaged at → ⊥) }
    ensures any_moment { MatchResult result
        (λ kept. AtEachMoment D.Disk disk kept.journal.disk (D.may_leave disk))
        (λ e. AtEachMoment D.Disk disk e.1 (D.may_leave disk)) }
    ensures cause { MatchResult result
        (λ kept. CountsFault (D.faults disk) (D.faults kept.journal.disk) ⊥)
        (λ e. CountsFault (D.faults disk) (D.faults e.1) (e.0 ≡ StoreFault.Disk)) }
{
    DurableBuild::open(alloc, disk)
}
