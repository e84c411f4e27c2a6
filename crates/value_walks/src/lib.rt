//! The methods that walk over a value with a closure (`each`, `collect`, `find`, `findAll`, `any`, `every`, `times`), and
//! the `for` over a value: what a turn begins with, what is kept from turn to turn, and what the walk gives.
//!
//! The rules are the `Walks` of `model_values`, under this product's limits. A turn reads its place as the value is then,
//! so nothing of the value is kept. What is kept while a closure runs is what a saved build keeps in the frame of a
//! turn (`held_in_turn` of `model_run`), and a walk is made of that again (`WalkInTurn::of`, `Walk::of`). A turn takes
//! constant time, but for the bytes that go into new cells.
//!
//! ```
//! let mut walk = Walk::begun(alloc, Method::Collect).unwrap();
//! let mut at = 0;
//! while let Some(turn) = walk_turn(alloc, heap, &list, false, at)? {
//!     let held = walk.in_turn(&turn);
//!     let given = run(closure, &turn.arguments)?;
//!     match held.after(alloc, heap, &given)? {
//!         Next::GoesOn(next) => walk = next,
//!         Next::Ends(effect) => return perform(heap, effect),
//!     }
//!     at += 1;
//! }
//! walk.at_end(alloc, heap, &list)
//! ```
#![tactic(auto)]

mod kept;
mod loops;
mod place;
mod tail;
mod turns;
mod walk;

pub use loops::{LoopPlace, has_loop_turn, loop_turn};
pub use tail::Tail;
pub use turns::{Parts, Turn, has_walk_turn, walk_turn};
pub use walk::{Next, Walk, WalkInTurn};
