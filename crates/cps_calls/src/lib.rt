//! Calls: of closures and functions, of names, of methods, and the methods that walk over a value with a closure.
//!
//! A call is counted directly before what it does with its arguments. The order in which a name is looked for: a declared
//! variable, whose value was read before the arguments; a function of the script; a binding variable that holds a closure; a
//! step. Each function that makes a move has the one form of contract of `cps_frames` (`ComesTo`); `go_on` may make two
//! (`GoesOnTo`), since a walk goes from one turn into the next without a list of what it keeps in between.
#![tactic(auto)]

mod bodies;
mod branches;
mod callees;
mod closures;
mod effects;
mod kept;
mod machine;
mod methods;
mod names;
mod parameters;
mod step_names;
mod variables;
mod walks;

pub use bodies::enter_call;
pub use branches::branched;
pub use machine::go_on;
pub use methods::method_step;
pub use names::{call_named, called_value};
pub use walks::{again, walk_turn};
