//! The table of frames, for what reads frames from disk: which kind of frame may stand at which node of a script, how many
//! of the node's parts are done there, which values it keeps, and what stands directly inside it.
//!
//! The table is `FrameTable` of `model_run`; [`frame_row`] gives its row of a kind at a node of a script whose syntax is
//! numbered (`cps_code`), without memory. Kinds of frames have numbers in an image ([`frame_kind`]), and in place of the
//! parts that still come an image has those that are done ([`left_at`]).
//!
//! ```
//! // the script `f(7)`: the script, its statement, the call and its argument
//! let row = frame_row(code, FrameKind::Gathered, 2, 0, env);
//! assert!(row.stands && row.done == 0 && row.any == 0);
//! assert!(row.inside == Within::Part(0));
//! ```
#![tactic(auto)]

mod counts;
mod forms;
mod kinds;
mod leading;
mod line;
mod nesting;
mod parts;
mod places;
mod row;
mod steps;
mod table;
mod values;

pub use kinds::{frame_kind, kind_number};
pub use nesting::{Spot, may_ask, may_be_called, may_stand, spot_in};
pub use places::left_at;
pub use row::{Further, Row, Sort, Within};
pub use table::frame_row;
pub use values::{value_fits, values_fit};
