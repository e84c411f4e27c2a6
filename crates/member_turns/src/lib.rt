//! A life of a build with its members, who work in threads: from the opening of the lock to its closing.
//!
//! *Gate.* A [`SiteGate`] is the gate of one member: each of its calls is one step of the program lock round a `SiteState`, through a
//! pass of its own. What it tells contracts is read off the entries that its pass has in the history.
//!
//! *Turn.* [`work_through`] lets a member work through a pass of its own. A [`Seat`] has a member with the pass of its turn.
//!
//! *Round.* [`take_round_in_threads`] gives each member one turn, with as many members at work at once as it is told.
//!
//! *Life.* [`live_in_threads`] opens the program lock over a `SiteState`, gives the members (executors with their hosts, and the
//! operator with the answers) one round after the other, asks behind each round how far the build has come, and closes the lock when
//! nobody can go on. `specs/Lives` says what is known then of the history, of the members, and of how it ended. No sentence of it
//! speaks of the order of two members' entries.
//!
//! ```text
//! match live_in_threads(&rt, alloc, 8, state, &mut members, 5) {
//!     Ok((state, Ok(come))) => {}     // `come` is how far the build of `state` has come
//!     Ok((state, Err(Memory))) => {}  // memory was wanted before a round
//!     Err((Memory, state)) => {}      // nothing was done
//! }
//! ```
#![tactic(auto)]

mod asks;
mod calls;
mod ending;
mod gate;
mod life;
mod looking;
mod place;
mod round;
mod seat;
mod seating;
mod turn;

pub use gate::SiteGate;
pub use life::live_in_threads;
pub use locked_build;
pub use locked_build::saved_thread;
pub use place::Place;
pub use round::take_round_in_threads;
pub use seat::Seat;
pub use turn::work_through;
