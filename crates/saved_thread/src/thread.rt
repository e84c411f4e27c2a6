//! A green thread that an image keeps.
ghost use Rattle.std.specs.Prelude.{◌≡◌, ◌<◌, ◌≤◌, ◌+◌, ℕ, false, List, length, map, IfOk};
ghost use Rattle.std.specs.List.{AllByRecursion as AllAre};
ghost use Rattle.model_run.specs.Fitting.{FitsAtRest, NotReady, Rise};
ghost use Rattle.model_run.specs.Terms.{nodes_of};
ghost use Rattle.green_threads.specs.declared.runner.Seated.{Seated};
ghost use Rattle.green_threads.specs.Grouping.{FewBranches, IsSeated};
ghost use Rattle.cps_code.specs.Script.{IsScript, script_of};
ghost use Rattle.cps_frames.specs.declared.shared.Shared.{Shared};
ghost use Rattle.cps_frames.specs.Standing.{setting_of, common_of};
ghost use Rattle.thread_fits.specs.Seats.{as_seat};
ghost use Rattle.saved_thread.specs.Saving.{AtNodes, Begun, Storable, seat_in, thread_told, told_from};

use cps_code::Code;
use green_threads::Seated;
use image_form::ImageThread;
use script_thread::ScriptThread;
use std::alloc::{AllocError, Global};

/// A green thread that runs a script, of which an image keeps what its further turns hang on.
pub trait SavedThread: ScriptThread {
    /// What an image has of a thread in its seat, with the frames from this one on alone, the outermost being the first.
    /// `AllocError` where the memory was refused.
    fn saved(
        alloc: Global,
        code: &Code,
        seat: &Seated<Self>,
        first: usize,
    ) -> Result<ImageThread, AllocError>
        requires nodes { AtNodes (script_of code.now) (Self.stance seat.now.thread).frames }
        requires first { first ≤ length (Self.stance seat.now.thread).frames }
        ensures { IfOk result (λ saved. saved ≡ told_from first (thread_told (script_of code.now) (as_seat Self.stance seat.now))) };

    /// The thread of which an image has this, in its seat. `AllocError` where the memory was refused, or where more than
    /// 4,294,967,295 calls are open.
    fn restored(alloc: Global, code: &Code, saved: ImageThread) -> Result<Seated<Self>, AllocError>
        requires nodes { AllAre (λ f. f.node < length (nodes_of (script_of code.now))) saved.frames }
        requires few { FewBranches saved.wait }
        ensures told { IfOk result (λ seat. as_seat Self.stance seat ≡ seat_in (script_of code.now) saved) }
        ensures begun { IfOk result (Begun Self.stance) }
        ensures seated { IfOk result (λ seat. IsSeated Self.number Self.parent Self.branch seat) };

    /// Threads that fit can stand in an image, as far as they wait.
    ghost storable: { (xs : List (Seated Self)) (u : Shared) → Self.fits xs u → AllAre (λ x. Storable (script_of u.code) x.wait (Self.stance x.thread)) xs };

    /// Threads that have begun, and of which an image would pass its check, fit.
    ghost rested_fit: { (xs : List (Seated Self)) (u : Shared) (next : ℕ) → IsScript (script_of u.code) → AllAre (Begun Self.stance) xs → FitsAtRest (setting_of u) false (common_of u) next (map (as_seat Self.stance) xs) → Self.fits xs u };

    /// Threads that fit, and of which none is ready, are those of an image that passes its check: their numbers rise, and few
    /// have begun for the flow nodes that there are.
    ghost fit_rested: { (xs : List (Seated Self)) (u : Shared) (next : ℕ) → Self.fits xs u → Rise 0 next (map (λ (x : Seated Self). x.number) xs) → next ≤ 100000000 + length u.graph → AllAre (λ (x : Seated Self). NotReady x.wait) xs → FitsAtRest (setting_of u) false (common_of u) next (map (as_seat Self.stance) xs) };
}
