//! A green thread and its build between two moves of the machine, what a move is, and the words of which every form of
//! node, every frame and every step is put together.
//!
//! The machine runs a script by frames: what stands innermost makes a move, and the move says what is done next. Each
//! function that makes a move has one form of contract, `ComesTo` (`specs/Moves`): what the definitions of `model_run` say
//! of this node is what the move says, inside the frames that were put on the stack. The words here mirror the words of
//! the definitions, one for one, so that a function reads as its definition does.
//!
//! ```
//! // `while`: behind its test
//! let value = value_of(ending)?;
//! if truth(&shared.heap, &value) {
//!     turn(shared, frame.node, 0, Values::new(alloc), frame.env)
//! } else {
//!     Ok(Move::Ends(Ending::Normal(Value::Null)))
//! }
//! ```
#![tactic(auto)]

mod calls;
mod endings;
mod halt;
mod notes;
mod parts;
mod shared;
mod thread;
mod waits;

pub use calls::{call, call_inside, run_body, turn};
pub use endings::{statement_of, thrown_of, turn_of, value_of};
pub use halt::{Halt, moved};
pub use notes::{
    end_block, end_body, end_branches, note_atom, note_block, note_body, note_branch, say, tick,
};
pub use parts::{inside, part, under};
pub use shared::Shared;
pub use thread::{Move, ThreadState};
pub use waits::wait_for;
