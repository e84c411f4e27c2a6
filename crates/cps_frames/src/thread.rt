//! A green thread, and its moves.

ghost use Rattle.std.specs.Prelude.{◌≡◌, [], ◌∷◌, ◌++◌, OnOk};
ghost use Rattle.cps_frames.specs.Standing.{own_of};

use model_run::{Asked, Context, Ending, Entry, Frame};
use model_values::{Env, LimitKind};
use std::alloc::AllocError;

/// A green thread between two moves.
#[derive(Drop)]
pub struct ThreadState {
    pub number: u32,
    /// The number of the thread that waits for it, where it is a branch.
    pub parent: Option<u32>,
    /// Its last flow node.
    pub head: u32,
    pub context: Context,
    /// How many of its frames are bodies of closures and functions.
    pub calls: u32,
    /// Its frames, outermost first.
    pub stack: Vec<Frame>,
}

impl ThreadState {
    /// Puts a frame up, inside the others. `AllocError` where the memory was refused.
    pub fn push(&mut self, frame: Frame) -> Result<(), AllocError>
        ensures pushed { OnOk result (self.new.stack.items ≡ self.old.stack.items ++ frame ∷ []) }
        ensures same { OnOk result (own_of self.new ≡ own_of self.old) }
        ensures parent { self.new.parent ≡ self.old.parent }
    {
        self.stack.push(frame)?;
        Ok(())
    }
}

/// What is done next, inside the frames of a thread.
#[derive(Drop)]
pub enum Move {
    /// What stood inside the innermost frame has ended so.
    Ends(Ending),
    /// The build has met this limit, which ends it.
    Hits(LimitKind),
    /// The node with this number is entered, with these variables.
    Enter(Entry, u32, Env),
    /// The thread waits.
    Asks(Asked),
}
