//! The parts of a node by their forms, and the values that a node keeps by their places.

ghost use Rattle.std.specs.Prelude.{◌≡◌, ◌<◌, length};
ghost use Rattle.model_run.specs.Around.{arity, form_at, value_at};
ghost use Rattle.model_run.specs.Nesting.{shape_at};
ghost use Rattle.model_run.specs.Terms.{nodes_of};
ghost use Rattle.cps_code.specs.Script.{script_of};

use cps_code::Code;
use model_syntax::NodeForm;
use model_values::{Value, Values};

/// What part `at` of a node is, counted from 0.
pub fn part_form(code: &Code, node: u32, at: u32) -> &NodeForm
    requires node { node < length (nodes_of (script_of code.now)) }
    requires part { at < arity (shape_at (script_of code.now) node) }
    ensures { result.now ≡ form_at (shape_at (script_of code.now) node).parts at }
{
    match code.part(node, at) {
        None => unreachable!(),
        Some(part) => code.kind(part),
    }
}

/// The kept value at a place, counted from 0; null where there is none.
pub fn value_at(values: &Values, at: usize) -> Value
    ensures { result ≡ value_at at values.now }
{
    values.get(at).copied().unwrap_or(Value::Null)
}

/// The kept value at a place where there is one, counted from 0.
pub fn kept_value(values: &Values, at: usize) -> Value
    requires { at < length values.now }
    ensures { result ≡ value_at at values.now }
{
    values.as_slice()[at]
}
