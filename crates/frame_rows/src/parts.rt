//! The parts of a node by their places.

ghost use Rattle.std.specs.Prelude.{◌≡◌, ◌<◌, length};
ghost use Rattle.std.specs.Option.{option_copied};
ghost use Rattle.model_run.specs.Around.{arity, form_at};
ghost use Rattle.model_run.specs.FrameTable.{current};
ghost use Rattle.model_run.specs.Nesting.{shape_at};
ghost use Rattle.model_run.specs.Terms.{nodes_of};
ghost use Rattle.cps_code.specs.Script.{script_of};
ghost use Rattle.frame_rows.specs.Rows.{form_or_block};

use cps_code::Code;
use model_syntax::NodeForm;

/// How many parts a node has.
pub(crate) fn arity(code: &Code, node: u32) -> u32
    requires { node < length (nodes_of (script_of code.now)) }
    ensures { result ≡ arity (shape_at (script_of code.now) node) }
{
    code.parts(node)
}

/// The part of a node behind which so many still come; the first where there are not as many.
pub(crate) fn current(code: &Code, node: u32, left: u32) -> u32
    requires { node < length (nodes_of (script_of code.now)) }
    ensures { result ≡ current (shape_at (script_of code.now) node) left }
{
    arity(code, node).saturating_sub(left).saturating_sub(1)
}

/// What part `at` of a node is, and `None` where it has no such part, which is read as a block without statements.
pub(crate) fn part_form(code: &Code, node: u32, at: u32) -> Option<&NodeForm>
    requires { node < length (nodes_of (script_of code.now)) }
    ensures { form_or_block (option_copied result) ≡ form_at (shape_at (script_of code.now) node).parts at }
{
    match code.part(node, at) {
        None => None,
        Some(part) => Some(code.kind(part)),
    }
}
