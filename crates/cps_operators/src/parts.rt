//! The parts of a node by their places.

ghost use Rattle.std.specs.Prelude.{◌≡◌, ◌<◌, ◌-◌, suc, length};
ghost use Rattle.model_run.specs.Around.{arity, form_at};
ghost use Rattle.model_run.specs.FrameTable.{current};
ghost use Rattle.model_run.specs.Nesting.{shape_at};
ghost use Rattle.model_run.specs.Terms.{nodes_of};
ghost use Rattle.cps_code.specs.Script.{script_of};

use cps_code::Code;
use model_syntax::NodeForm;

/// How many parts a node has.
pub fn arity(code: &Code, node: u32) -> u32
    requires { node < length (nodes_of (script_of code.now)) }
    ensures { result ≡ arity (shape_at (script_of code.now) node) }
{
    code.parts(node)
}

/// The part of a node behind which so many still come.
pub fn current(code: &Code, node: u32, left: u32) -> u32
    requires node { node < length (nodes_of (script_of code.now)) }
    requires left { left < arity (shape_at (script_of code.now) node) }
    ensures current { result ≡ current (shape_at (script_of code.now) node) left }
    ensures below { result < arity (shape_at (script_of code.now) node) }
{
    arity(code, node) - 1 - left
}

/// What part `at` of a node is.
pub fn part_form(code: &Code, node: u32, at: u32) -> &NodeForm
    requires node { node < length (nodes_of (script_of code.now)) }
    requires part { at < arity (shape_at (script_of code.now) node) }
    ensures { result.now ≡ form_at (shape_at (script_of code.now) node).parts at }
{
    match code.part(node, at) {
        None => unreachable!(),
        Some(part) => code.kind(part),
    }
}
