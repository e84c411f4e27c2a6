//! The arguments with names of a call, which are one map.

ghost use Rattle.std.specs.Prelude.{◌≡◌, ◌<◌, ◌∷◌, ◌++◌, [], length, zip, take, IfOk};
ghost use Rattle.indexmap.specs.IndexMap.{insert_all};
ghost use Rattle.model_values.specs.Keys.{same_key};
ghost use Rattle.model_run.specs.Around.{arity, form_at};
ghost use Rattle.model_run.specs.Gathering.{closes_named, is_call, is_named, named_keys};
ghost use Rattle.model_run.specs.Nesting.{shape_at};
ghost use Rattle.model_run.specs.Terms.{nodes_of};
ghost use Rattle.cps_code.specs.Script.{script_of};

use cps_code::Code;
use cps_operators::{arity, part_form};
use model_syntax::NodeForm;
use model_values::{Entries, Key, Value, Values};
use std::alloc::{AllocError, Global};

/// Whether the part behind which so many still come is the last argument with a name of a call.
pub fn closes_named(code: &Code, node: u32, left: u32) -> bool
    requires node { node < length (nodes_of (script_of code.now)) }
    requires left { left < arity (shape_at (script_of code.now) node) }
    ensures { result ≡ closes_named (shape_at (script_of code.now) node) left }
{
    let next = arity(code, node) - left;
    is_call(code.kind(node)) && is_named(code, node, next - 1) && !is_named(code, node, next)
}

/// Whether a node is a call.
fn is_call(form: &NodeForm) -> bool
    ensures { result ≡ is_call form.now }
{
    matches!(form, NodeForm::Call(_) | NodeForm::Method(_, _))
}

/// Whether part `at` of a node is there and has a name.
fn is_named(code: &Code, node: u32, at: u32) -> bool
    requires { node < length (nodes_of (script_of code.now)) }
    ensures { result ≡ is_named (form_at (shape_at (script_of code.now) node).parts at) }
{
    match code.part(node, at) {
        None => false,
        Some(part) => matches!(code.kind(part), NodeForm::NamedEntry(_)),
    }
}

/// How many arguments of a call have names.
pub fn named_count(code: &Code, node: u32) -> usize
    requires { node < length (nodes_of (script_of code.now)) }
    ensures { result ≡ length (named_keys (shape_at (script_of code.now) node).parts) }
{
    let mut count = 0;
    for at in 0..arity(code, node) {
        if is_named(code, node, at) {
            count += 1;
        }
    }
    count
}

/// A map of the names of the arguments of a call and these values. `AllocError` where the memory was refused.
pub fn named_entries(
    alloc: Global,
    code: &Code,
    node: u32,
    values: &[Value],
) -> Result<Entries, AllocError>
    requires { node < length (nodes_of (script_of code.now)) }
    ensures { IfOk result (λ entries. entries ≡ insert_all same_key [] (zip (named_keys (shape_at (script_of code.now) node).parts) values.now)) }
{
    let mut entries = Entries::new(alloc);
    let mut count = 0;
    for at in 0..arity(code, node) {
        if let NodeForm::NamedEntry(name) = part_form(code, node, at) {
            if let Some(value) = values.get(count) {
                entries.put(Key::Text(name.clone()?), *value)?;
            }
            count += 1;
        }
    }
    Ok(entries)
}

/// These values up to `before`, and this map behind them. `AllocError` where the memory was refused.
pub fn with_map(values: Values, before: usize, map: Value) -> Result<Values, AllocError>
    ensures { IfOk result (λ kept. kept ≡ take before values ++ map ∷ []) }
{
    let mut values = values.into_vec();
    values.truncate(before);
    values.push(map)?;
    Ok(Values::from_vec(values))
}
