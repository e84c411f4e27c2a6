//! How many values are kept of the parts of a node.

ghost use Rattle.std.specs.Prelude.{◌≡◌, ◌<◌, ◌≤◌, ◌-◌, ◌+◌, ◌*◌, suc, length};
ghost use Rattle.std.specs.Option.{option_copied};
ghost use Rattle.model_run.specs.Around.{arity, form_at};
ghost use Rattle.model_run.specs.FrameTable.{count_before, count_behind, count_of, count_with, key_count};
ghost use Rattle.model_run.specs.Gathering.{closes_named, named_keys};
ghost use Rattle.model_run.specs.Names.{look};
ghost use Rattle.model_run.specs.Nesting.{shape_at};
ghost use Rattle.model_run.specs.Terms.{nodes_of};
ghost use Rattle.cps_code.specs.Script.{script_of};
ghost use Rattle.frame_rows.specs.Rows.{form_or_block};

use crate::forms::{is_call, is_named};
use crate::parts::{arity, current, part_form};
use cps_code::Code;
use model_syntax::NodeForm;
use model_values::Env;

/// The cell of the nearest variable of this name, and `None` exactly where none of this name is declared.
pub(crate) fn look(name: &[u8], env: &Env) -> Option<u32>
    ensures { result ≡ look name.now env.now }
{
    for binding in env.iter() {
        if binding.name.as_slice() == name {
            return Some(binding.cell);
        }
    }
    None
}

/// How many values are kept before any part: what a method is called on, and the value of a variable that is called.
fn count_before(form: &NodeForm, env: &Env) -> usize
    ensures count { result ≡ count_before form.now env.now }
    ensures few { result ≤ 1 }
{
    match form {
        NodeForm::Method(_, _) => 1,
        NodeForm::Call(name) => if look(name.as_slice(), env).is_some() {
            1
        } else {
            0
        },
        _ => 0,
    }
}

/// How many values are kept behind a part where so many were kept before it: none more for plain text, two for an entry
/// with a computed key.
fn count_with(part: Option<&NodeForm>, before: usize) -> usize
    requires { before < 4 * 4294967296 }
    ensures count { result ≡ count_with (form_or_block (option_copied part.entry)) before }
    ensures few { result ≤ before + 2 }
{
    match part {
        Some(NodeForm::PlainPart(_)) => before,
        Some(NodeForm::ComputedEntry) => before + 2,
        _ => before + 1,
    }
}

/// How many values of an entry stand before its value.
pub(crate) fn key_count(part: Option<&NodeForm>) -> usize
    ensures { result ≡ key_count (form_or_block (option_copied part.entry)) }
{
    match part {
        Some(NodeForm::ComputedEntry) => 1,
        _ => 0,
    }
}

/// How many arguments of a call have names.
fn named_count(code: &Code, node: u32) -> usize
    requires { node < length (nodes_of (script_of code.now)) }
    ensures { result ≡ length (named_keys (shape_at (script_of code.now) node).parts) }
{
    let mut count = 0;
    for at in 0..arity(code, node) {
        if is_named(part_form(code, node, at)) {
            count += 1;
        }
    }
    count
}

/// Whether the part behind which so many still come is the last argument with a name of a call.
fn closes_named(code: &Code, node: u32, left: u32) -> bool
    requires node { node < length (nodes_of (script_of code.now)) }
    requires left { left < arity (shape_at (script_of code.now) node) }
    ensures { result ≡ closes_named (shape_at (script_of code.now) node) left }
{
    let next = arity(code, node) - left;
    is_call(code.kind(node))
        && is_named(part_form(code, node, next - 1))
        && !is_named(part_form(code, node, next))
}

/// How many values are kept behind the part behind which so many still come, where so many were kept before it. The
/// arguments with names are one map behind the last of them.
fn count_behind(code: &Code, node: u32, left: u32, before: usize) -> usize
    requires node { node < length (nodes_of (script_of code.now)) }
    requires left { left < arity (shape_at (script_of code.now) node) }
    requires few { before < 4 * 4294967296 }
    ensures count { result ≡ count_behind (shape_at (script_of code.now) node) left before }
    ensures few { result ≤ before + 3 }
{
    let part = part_form(code, node, current(code, node, left));
    let behind = count_with(part, before);
    if closes_named(code, node, left) {
        behind.saturating_sub(named_count(code, node)) + 1
    } else {
        behind
    }
}

/// How many values are kept behind the first parts, in time linear in their number and the depth of the scopes.
pub(crate) fn count_of(code: &Code, node: u32, env: &Env, done: u32) -> usize
    requires node { node < length (nodes_of (script_of code.now)) }
    requires done { done ≤ arity (shape_at (script_of code.now) node) }
    ensures count { result ≡ count_of (shape_at (script_of code.now) node) env.now done }
    ensures few { result ≤ 3 * done + 1 }
{
    let parts = arity(code, node);
    let mut count = count_before(code.kind(node), env);
    for at in 0..done {
        count = count_behind(code, node, parts - 1 - at, count);
    }
    count
}
