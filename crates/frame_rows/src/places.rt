//! The place of a frame in an image.

ghost use Rattle.std.specs.Prelude.{◌≡◌, ◌<◌, length};
ghost use Rattle.model_run.specs.Nesting.{shape_at};
ghost use Rattle.model_run.specs.Terms.{nodes_of};
ghost use Rattle.cps_code.specs.Script.{script_of};
ghost use Rattle.frame_rows.specs.Places.{left_at};

use crate::line::line_of;
use crate::parts::current;
use crate::table::told;
use cps_code::Code;
use model_run::FrameKind;

/// How many parts of a node still come behind the one that a frame of this kind evaluates, where so many are done; 0 where
/// the kind does not tell the parts apart. A frame that meets its row is found so from the parts that are done, which the row
/// tells.
pub fn left_at(code: &Code, kind: FrameKind, node: u32, done: u32) -> u32
    requires { node < length (nodes_of (script_of code.now)) }
    ensures { result ≡ left_at kind (shape_at (script_of code.now) node) done }
{
    if told(line_of(kind).place) {
        current(code, node, done)
    } else {
        0
    }
}
