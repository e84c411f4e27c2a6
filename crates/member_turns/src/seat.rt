//! A member with a pass of its own.
ghost use Rattle.std.specs.Prelude.{◌≡◌, ◌<◌, Some};
ghost use Rattle.program_lock.specs.Passes.{IsPassOf};

use crate::locked_build::SiteState;
use crate::saved_thread::SavedThread;
use crate::turn::work_through;
use agent_worker::Member;
use jp_disk::Disk;
use jp_io::Source;
use program_lock::{Pass, Program, Worker};
use std::alloc::{AllocGlobal, Global};
use std::sync::Wait;
use std::time::Clock;
use task_host::Host;

/// A member who works on a build behind a lock, with a pass of its own while there is one.
#[derive(Drop)]
pub struct Seat<'a, W: Wait, D: Disk, R: SavedThread + Drop, H, A> {
    pub rt: &'a W,
    pub alloc: Global,
    pub program: &'a Program<SiteState<D, R>>,
    /// How many looks without news make a task lost, at least 1.
    pub looks: u32,
    pub member: Member<H, A>,
    pub pass: Option<Pass<SiteState<D, R>>>,
    pub ghost some_looks: { 0 < looks },
    pub ghost belongs: { (p : _) → pass ≡ Some p → IsPassOf program.now p },
}

/// Does the work of the member through its pass, where it has one.
impl<'a, W: Wait + Clock + AllocGlobal, D: Disk, R: SavedThread + Drop, H: Host, A: Source> Worker
    for Seat<'a, W, D, R, H, A> {
    ghost use Rattle.std.specs.Prelude.{◌≡◌};
    ghost use Rattle.member_turns.specs.Lower.locked_build.Says.{Says};
    ghost use Rattle.member_turns.specs.Turns.{DidTurn};
    ghost use Rattle.member_turns.specs.Serving.{Serves};

    // Its member works through its pass, where it has one; what else it has stays.
    ghost done = { λ a b. (b.program ≡ a.program) × (b.looks ≡ a.looks)
        × Serves (DidTurn H.Host A.Source a.looks) (λ base history ask reply new. Says R.stance base.value.build history ask reply new) a.pass b.pass a.member b.member };

    fn work(&mut self) {
        let Some(pass) = self.pass.take() else {
            return;
        };
        let (_, pass) = work_through(
            self.rt,
            self.alloc,
            self.program,
            pass,
            &mut self.member,
            self.looks,
        );
        self.pass = Some(pass);
    }
}
