//! The row of a frame.

ghost use Rattle.std.specs.Prelude.{◌≡◌, ◌<◌, ◌+◌, ◌*◌, ◌++◌, ◌∷◌, length, map};
ghost use Rattle.model_run.specs.FrameTable.{any_values, current, frame_row, gathered_within, suffixed_within, walk_further, walk_values};
ghost use Rattle.model_run.specs.FrameTable as rows;
ghost use Rattle.model_run.specs.Assignments.{operator_in, place_size};
ghost use Rattle.model_run.specs.Around.{Shape, arity, form_at};
ghost use Rattle.model_run.specs.Nesting.{shape_at};
ghost use Rattle.model_run.specs.Terms.{nodes_of};
ghost use Rattle.cps_code.specs.Script.{script_of};
ghost use Rattle.method_names.specs.Names.{seen};
ghost use Rattle.frame_rows.specs.Rows.{asked, done_at, form_or_block, further_by, further_seen, inside_by, kept_by, limit_at, row_seen, sort_seen, stands_at, told_at, within_seen};
ghost use Rattle.std.specs.Option.{option_copied};

use crate::counts::{count_of, key_count};
use crate::forms::{
    gathers, is_arm, is_block, is_callable, is_catch, is_chain, is_choice, is_computed, is_finally,
    is_plain, is_target, operator_count, place_size,
};
use crate::line::{Asks, Inside, Keeps, Line, Place, Stand, line_of};
use crate::parts::{arity, current, part_form};
use crate::steps::{calls_step, walk_method, walks};
use crate::{Further, Row, Sort, Within};
use cps_code::Code;
use method_names::Method;
use model_run::FrameKind;
use model_syntax::NodeForm;
use model_values::Env;

/// The row of the table of frames for a frame of this kind at this node, where so many parts of the node still come behind
/// the one that is being evaluated. Of the variables only their names matter. It takes no memory, and time linear in
/// the number of the node's parts and the depth of the scopes.
pub fn frame_row(code: &Code, kind: FrameKind, node: u32, left: u32, env: &Env) -> Row
    requires { node < length (nodes_of (script_of code.now)) }
    ensures { row_seen result ≡ frame_row kind (shape_at (script_of code.now) node) left env.now }
{
    let line = line_of(kind);
    let kept = kept_values(line.keeps, code, node, left, env);
    let stands = stands(line.stand, code.kind(node), env);
    Row {
        stands: asked(line.asks, stands, code, node, left),
        told: told(line.place),
        limit: limit(line.place, code, node),
        done: done(line.place, code, node, left),
        any: kept.any,
        sorts: kept.sorts,
        further: kept.further,
        inside: inside(line.inside, code, node, left),
    }
}

/// Whether a node is one of those of a line.
fn stands(stand: Stand, form: &NodeForm, env: &Env) -> bool
    ensures { (sh : Shape) → sh.form ≡ form.now → result ≡ stands_at stand sh env.now }
{
    match stand {
        Stand::Block => is_block(form),
        Stand::If => matches!(form, NodeForm::If),
        Stand::While => matches!(form, NodeForm::While),
        Stand::ForSteps => matches!(form, NodeForm::ForSteps),
        Stand::ForEach => matches!(form, NodeForm::ForEach(_)),
        Stand::Try => matches!(form, NodeForm::Try),
        Stand::Declaration => matches!(form, NodeForm::Declare(_)),
        Stand::Target => is_target(form),
        Stand::Assignment => matches!(form, NodeForm::Assign(_)),
        Stand::Return => matches!(form, NodeForm::Return),
        Stand::Throw => matches!(form, NodeForm::Throw),
        Stand::Gathering => gathers(form),
        Stand::Group => matches!(form, NodeForm::Group),
        Stand::Chosen => matches!(form, NodeForm::Chosen),
        Stand::Chain => is_chain(form),
        Stand::Joined => matches!(form, NodeForm::Joined),
        Stand::Prefixed => matches!(form, NodeForm::Prefixed),
        Stand::Suffixed => matches!(form, NodeForm::Suffixed),
        Stand::Index => matches!(form, NodeForm::Index),
        Stand::Callable => is_callable(form),
        Stand::Walk => matches!(form, NodeForm::Method(_, _)) && walks(walk_method(form)),
        Stand::Closure => matches!(form, NodeForm::Closure(_)),
        Stand::Call(step) => calls_step(step, form, env),
    }
}

/// Whether the parts of the node are those of a line too.
fn asked(asks: Asks, stands: bool, code: &Code, node: u32, left: u32) -> bool
    requires { node < length (nodes_of (script_of code.now)) }
    ensures { result ≡ asked asks stands (shape_at (script_of code.now) node) left }
{
    let here = current(code, node, left);
    match asks {
        Asks::Nothing => stands,
        Asks::Arm => stands && is_arm(part_form(code, node, here)),
        Asks::Catch => stands && is_catch(part_form(code, node, here)),
        Asks::Choice => stands && is_choice(part_form(code, node, here)),
        Asks::NoPlainText => stands && !is_plain(part_form(code, node, here)),
        Asks::Computed => stands && is_computed(part_form(code, node, here)),
        Asks::LastFinally => {
            let last = arity(code, node).saturating_sub(1);
            stands && is_finally(part_form(code, node, last))
        }
        Asks::Parts => stands && arity(code, node) > 0,
        Asks::TargetOf => stands && place_size(part_form(code, node, 0)) > 0,
        Asks::TargetAt => stands && place_size(part_form(code, node, 0)) == 2,
    }
}

/// Whether a line tells the parts apart.
pub(crate) fn told(place: Place) -> bool
    ensures { result ≡ told_at place }
{
    matches!(place, Place::Any | Place::Further | Place::OrFirst)
}

/// What the number of parts that still come is below.
fn limit(place: Place, code: &Code, node: u32) -> u32
    requires { node < length (nodes_of (script_of code.now)) }
    ensures { result ≡ limit_at place (shape_at (script_of code.now) node) }
{
    match place {
        Place::At(_) | Place::Last | Place::Behind => 1,
        Place::Any => arity(code, node),
        Place::Further => arity(code, node).saturating_sub(1),
        Place::OrFirst => arity(code, node).max(1),
    }
}

/// How many parts are done.
fn done(place: Place, code: &Code, node: u32, left: u32) -> u32
    requires { node < length (nodes_of (script_of code.now)) }
    ensures { result ≡ done_at place (shape_at (script_of code.now) node) left }
{
    match place {
        Place::At(at) => at,
        Place::Last => arity(code, node).saturating_sub(1),
        Place::Behind => arity(code, node),
        Place::Any | Place::Further | Place::OrFirst => current(code, node, left),
    }
}

/// The values that are kept.
#[derive(Clone, Copy, Debug)]
struct Kept {
    any: usize,
    sorts: &'static [Sort],
    further: Further,
}

const WALK: &[Sort] = &[Sort::Any, Sort::Closure, Sort::Count];

const FINDING: &[Sort] = &[Sort::Any, Sort::Closure, Sort::Count, Sort::Any];

/// The values that a frame at this node keeps.
fn kept_values(keeps: Keeps, code: &Code, node: u32, left: u32, env: &Env) -> Kept
    requires { node < length (nodes_of (script_of code.now)) }
    ensures values { any_values result.any ++ map sort_seen result.sorts.now ≡ kept_by keeps (shape_at (script_of code.now) node) left env.now }
    ensures further { further_seen result.further ≡ further_by keeps (shape_at (script_of code.now) node) }
{
    match keeps {
        Keeps::Sorts(sorts) => Kept {
            any: 0,
            sorts,
            further: Further::None,
        },
        Keeps::Target => counted(target_count(code, node)),
        Keeps::Gathered => counted(gathered_count(code, node, left, env)),
        Keeps::Before => counted(before_count(code, node, left, env)),
        Keeps::Walk => walked(walk_method(code.kind(node))),
    }
}

/// So many values of any sort.
fn counted(any: usize) -> Kept
    ensures values { any_values result.any ++ map sort_seen result.sorts.now ≡ any_values any }
    ensures further { further_seen result.further ≡ rows.No_more }
{
    Kept {
        any,
        sorts: &[],
        further: Further::None,
    }
}

/// What a walk by this method keeps.
fn walked(method: Method) -> Kept
    ensures values { any_values result.any ++ map sort_seen result.sorts.now ≡ rows.Any ∷ rows.A_closure ∷ rows.A_count ∷ walk_values (seen method) }
    ensures further { further_seen result.further ≡ walk_further (seen method) }
{
    match method {
        Method::Find => Kept {
            any: 0,
            sorts: FINDING,
            further: Further::One,
        },
        Method::FindAll => Kept {
            any: 0,
            sorts: FINDING,
            further: Further::Many,
        },
        Method::Collect => Kept {
            any: 0,
            sorts: WALK,
            further: Further::Many,
        },
        _ => Kept {
            any: 0,
            sorts: WALK,
            further: Further::None,
        },
    }
}

/// How many values an assignment keeps.
fn target_count(code: &Code, node: u32) -> usize
    requires { node < length (nodes_of (script_of code.now)) }
    ensures { result ≡ place_size (form_at (shape_at (script_of code.now) node).parts 0) + rows.operator_count (operator_in (shape_at (script_of code.now) node).form) }
{
    place_size(part_form(code, node, 0)) + operator_count(code.kind(node))
}

/// How many values are kept before the current part.
fn before_count(code: &Code, node: u32, left: u32, env: &Env) -> usize
    requires { node < length (nodes_of (script_of code.now)) }
    ensures count { result ≡ rows.count_of (shape_at (script_of code.now) node) env.now (current (shape_at (script_of code.now) node) left) }
    ensures few { result < 4 * 4294967296 }
{
    count_of(code, node, env, current(code, node, left))
}

/// How many values are kept before the value of the current part.
fn gathered_count(code: &Code, node: u32, left: u32, env: &Env) -> usize
    requires { node < length (nodes_of (script_of code.now)) }
    ensures { result ≡ rows.count_of (shape_at (script_of code.now) node) env.now (current (shape_at (script_of code.now) node) left) + rows.key_count (form_at (shape_at (script_of code.now) node).parts (current (shape_at (script_of code.now) node) left)) }
{
    let here = current(code, node, left);
    before_count(code, node, left, env) + key_count(part_form(code, node, here))
}

/// What stands inside a frame at this node.
fn inside(inside: Inside, code: &Code, node: u32, left: u32) -> Within
    requires { node < length (nodes_of (script_of code.now)) }
    ensures { within_seen result ≡ inside_by inside (shape_at (script_of code.now) node) left }
{
    let here = current(code, node, left);
    match inside {
        Inside::Always(within) => within,
        Inside::Current => Within::Part(here),
        Inside::CurrentFirst => Within::Inner(here, 0),
        Inside::Last => Within::Part(arity(code, node).saturating_sub(1)),
        Inside::LastFirst => Within::Inner(arity(code, node).saturating_sub(1), 0),
        Inside::Gathered => gathered_within(here, part_form(code, node, here)),
        Inside::Suffixed => suffixed_within(here),
    }
}

/// What is evaluated of a part that is one of several: the value of an entry, or the part itself.
fn gathered_within(at: u32, part: Option<&NodeForm>) -> Within
    ensures { within_seen result ≡ gathered_within at (form_or_block (option_copied part.entry)) }
{
    match part {
        Some(NodeForm::NamedEntry(_)) => Within::Inner(at, 0),
        Some(NodeForm::NumberedEntry(_)) => Within::Inner(at, 0),
        Some(NodeForm::ComputedEntry) => Within::Inner(at, 1),
        _ => Within::Part(at),
    }
}

/// The first part of a suffixed expression is a primary, and the others are suffixes.
fn suffixed_within(at: u32) -> Within
    ensures { within_seen result ≡ suffixed_within at }
{
    if at == 0 {
        Within::Part(0)
    } else {
        Within::Suffix(at)
    }
}
