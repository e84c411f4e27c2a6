//! The commands that show the build of a store.
ghost use Rattle.std.specs.Prelude.{◌≡◌, ◌⊎◌, List, ℕ, Some};
ghost use Rattle.jp_disk.specs.Runs.{AtEachMoment};
ghost use Rattle.build_life.specs.Lower.build_core.Builds.{StandsFor, nodes_of};
ghost use Rattle.model_run.specs.GraphText.{graph_text};
ghost use Rattle.build_commands.specs.Showing.{Causes, Shows, ShowsLast, TellsOf};
ghost use Rattle.build_commands.specs.Writing.{Writes};

use crate::done::Done;
use crate::refusal::{Refusal, tell, tell_text};
use build_life::build_core::Build;
use build_life::durable_build::DurableBuild;
use build_life::saved_thread::SavedThread;
use jp_disk::Disk;
use jp_io::Sink;
use std::alloc::{AllocError, Global};

/// Writes the log of the build of a store. It changes no byte of it.
///
/// | status | comes | text |
/// |---|---|---|
/// | 9 | exactly where the store has no record | `program.dat: no build` |
/// | 9 | exactly where the store is damaged | `program.dat: damaged at OFFSET`, the place of the damaged record's gate |
/// | 5 | exactly where the disk counted a fault | `controller: disk failed` |
/// | 7 | only where the sink counted a fault | a part of the log, from its beginning |
/// | 0 | else | the log so far |
/// | 8 | want of memory | `controller: out of memory` |
///
/// It is the log of the last record's image, whatever else the records tell. Where the store is that of one build, its log is
/// that of the world of the events that the store has.
pub fn log<D: Disk, R: SavedThread + Drop, K: Sink>(alloc: Global, disk: D, out: &mut K) -> Done<D>
    ensures causes { Causes (D.reads disk) (D.faults disk) (D.faults result.disk) (K.faults out.old) (K.faults out.new) result.status }
    ensures shows { Shows (λ w. w.shared.log) (D.reads disk) (D.faults disk) (D.faults result.disk) (K.written out.old) (K.written out.new) (K.faults out.old) (K.faults out.new) result.status }
    ensures last { (file : List ℕ) → D.reads disk ≡ Some file → ShowsLast (λ i. i.log) file (K.written out.old) (K.written out.new) (K.faults out.old) (K.faults out.new) result.status }
    ensures store { (file : List ℕ) → D.reads disk ≡ Some file → D.reads result.disk ≡ Some file }
    ensures any_moment { AtEachMoment D.Disk disk result.disk (D.may_leave disk) }
{
    match DurableBuild::<D, R>::open(alloc, disk) {
        Ok(durable) => {
            let status = tell_text(out, durable.build().log(), 0);
            Done {
                status,
                disk: durable.close(),
            }
        }
        Err((fault, disk)) => {
            let status = tell(out, &Refusal::of_store(alloc, fault));
            Done { status, disk }
        }
    }
}

/// Writes the flow graph of the build of a store, a line for each node. It changes no byte of the store, and its statuses are
/// those of [`log`].
pub fn graph<D: Disk, R: SavedThread + Drop, K: Sink>(
    alloc: Global,
    disk: D,
    out: &mut K,
) -> Done<D>
    ensures causes { Causes (D.reads disk) (D.faults disk) (D.faults result.disk) (K.faults out.old) (K.faults out.new) result.status }
    ensures shows { Shows (λ w. graph_text w.shared.nodes) (D.reads disk) (D.faults disk) (D.faults result.disk) (K.written out.old) (K.written out.new) (K.faults out.old) (K.faults out.new) result.status }
    ensures last { (file : List ℕ) → D.reads disk ≡ Some file → ShowsLast (λ i. graph_text i.nodes) file (K.written out.old) (K.written out.new) (K.faults out.old) (K.faults out.new) result.status }
    ensures store { (file : List ℕ) → D.reads disk ≡ Some file → D.reads result.disk ≡ Some file }
    ensures any_moment { AtEachMoment D.Disk disk result.disk (D.may_leave disk) }
{
    match DurableBuild::<D, R>::open(alloc, disk) {
        Ok(durable) => {
            let status = tell_graph(out, durable.build());
            Done {
                status,
                disk: durable.close(),
            }
        }
        Err((fault, disk)) => {
            let status = tell(out, &Refusal::of_store(alloc, fault));
            Done { status, disk }
        }
    }
}

/// Writes the flow graph of a build, and answers the exit status.
fn tell_graph<R: SavedThread + Drop, K: Sink>(out: &mut K, build: &Build<R>) -> u8
    ensures told { TellsOf (λ w. graph_text w.shared.nodes) (StandsFor R.stance build.now) (K.written out.old) (K.written out.new) (K.faults out.old) (K.faults out.new) result }
    ensures here { (result ≡ 8) ⊎ Writes (K.written out.old) (K.written out.new) (K.faults out.old) (K.faults out.new) (graph_text (nodes_of build.now)) 0 result }
{
    match build.graph_text() {
        Ok(text) => tell_text(out, text.as_slice(), 0),
        Err(AllocError) => tell(out, &Refusal::OutOfMemory),
    }
}
