//! The store of a build that begins.
ghost use Rattle.std.specs.Prelude.{◌≡◌, ℕ, List, Some, false, IfOk, IfErr, MatchResult};
ghost use Rattle.device_faults.specs.Faults.{CountsFault};
ghost use Rattle.durable_build.specs.Lower.build_core.Builds.{StandsFor, setting_in};
ghost use Rattle.durable_build.specs.Lower.build_core.Phases.{has_begun};
ghost use Rattle.model_run.specs.World.{unbegun};
ghost use Rattle.durable_build.specs.Settings.{script_setting};
ghost use Rattle.durable_build.specs.Lower.store_laws.Store.{Mean};
ghost use Rattle.build_store.specs.Lives.{Begins, BeginRefuses, IsBegun, TellsStart};

use cps_code::number;
use durable_build::build_core::Build;
use durable_build::saved_thread::SavedThread;
use durable_build::{DurableBuild, TakeFault};
use journal_core::CreateFault;
use jp_disk::Disk;
use model_run::{Event, Site};
use model_syntax::Tree;
use model_text::Bytes;
use std::alloc::{AllocError, Global};

/// Why a build was not begun.
#[derive(Clone, Copy, Debug, PartialEq, Eq)]
pub enum BeginFault {
    /// The disk has a build.
    HasBuild,
    /// The `Start` was not taken.
    Take(TakeFault),
}

/// Makes the store of the build of a script on the executors of a site, and takes its `Start` of these bytes.
///
/// # Errors
///
/// Each hands the disk back. `HasBuild` exactly where the disk has a record, or the beginning of one; then nothing is changed.
/// `Take` as [`DurableBuild::take`] answers, `Full` with the numbers of the record of this `Start`; `Stopped` does not come. Its `Disk` comes only where the disk's count of faults
/// rose, which it does at no other answer.
pub fn begin<D: Disk, R: SavedThread + Drop>(
    alloc: Global,
    disk: D,
    tree: Tree,
    site: Site,
    script: Bytes,
    agents: Bytes,
) -> Result<DurableBuild<D, R>, (BeginFault, D)>
    requires mean { Mean script agents (script_setting tree site) }
    ensures begun { (file : List ℕ) → D.reads disk ≡ Some file → MatchResult result
        (λ kept. Begins D.Disk R.stance (script_setting tree site) (Event.Start script agents) file disk kept)
        (λ e. BeginRefuses D.Disk R.stance (script_setting tree site) (Event.Start script agents) file disk e.0 e.1) }
    ensures made { IfOk result (IsBegun R.stance (script_setting tree site) script agents) }
    ensures faults { IfErr result (λ e. TellsStart (script_setting tree site) (Event.Start script agents) e.0) }
    ensures cause { MatchResult result
        (λ kept. CountsFault (D.faults disk) (D.faults kept.journal.disk) ⊥)
        (λ e. CountsFault (D.faults disk) (D.faults e.1) (e.0 ≡ BeginFault.Take TakeFault.Disk)) }
{
    let Ok(build) = prepare(alloc, tree, site) else {
        return Err((BeginFault::Take(TakeFault::Memory), disk));
    };
    let mut durable = match DurableBuild::create(alloc, disk, build) {
        Ok(durable) => durable,
        Err((CreateFault::HasRecord, disk)) => return Err((BeginFault::HasBuild, disk)),
        Err((CreateFault::Disk, disk)) => {
            return Err((BeginFault::Take(TakeFault::Disk), disk));
        }
    };
    match durable.take(alloc, &Event::Start { script, agents }) {
        Ok(_) => Ok(durable),
        Err(fault) => Err((BeginFault::Take(fault), durable.close())),
    }
}

/// The build of a script that has taken no event.
fn prepare<R: SavedThread + Drop>(
    alloc: Global,
    tree: Tree,
    site: Site,
) -> Result<Build<R>, AllocError>
    ensures stands { IfOk result (λ build. StandsFor R.stance build unbegun) }
    ensures setting { IfOk result (λ build. setting_in build ≡ script_setting tree site) }
    ensures unbegun { IfOk result (λ build. has_begun build.phase ≡ false) }
{
    let code = number(alloc, tree)?;
    Build::new(alloc, code, site)
}
