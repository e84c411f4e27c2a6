//! Nodes that stand in the place of others, since those between put up no frame around them.

ghost use Rattle.std.specs.Prelude.{◌≡◌, ◌<◌, length, IfSome};
ghost use Rattle.std.specs.Option.{option_copied};
ghost use Rattle.model_run.specs.FrameTable.{enters_body, is_name_call, passes_inner, passes_part};
ghost use Rattle.model_run.specs.Nesting.{shape_at};
ghost use Rattle.model_run.specs.Terms.{nodes_of, term_at, form_of};
ghost use Rattle.cps_code.specs.Script.{script_of};
ghost use Rattle.frame_rows.specs.Leading.{Decides, IsInside, LeadsTo, is_wanted, passed};
ghost use Rattle.frame_rows.specs.Rows.{form_or_block};

use crate::forms::{is_arm, is_choice, is_if_true};
use crate::parts::part_form;
use crate::steps::is_call_method;
use cps_code::Code;
use model_syntax::NodeForm;

/// The nodes that are looked for.
#[derive(Clone, Copy, Debug, PartialEq, Eq)]
pub(crate) enum Wanted {
    /// This one.
    Node(u32),
    /// What enters a body with no frame around it: a call of a name, or of the method `call`.
    Entering,
    /// A call of a name.
    NameCall,
}

/// Whether a node that is looked for may stand in the place of the node with this number, if there is one.
pub(crate) fn may_lead(code: &Code, node: u32, wanted: Wanted) -> bool
    requires { IsInside wanted (script_of code.now) }
    ensures { Decides result (LeadsTo (script_of code.now) wanted node) }
{
    if node >= code.len() {
        false
    } else {
        leads(code, node, wanted)
    }
}

/// Whether a node that is looked for may stand in the place of this one. It goes over the nodes that stand in its place.
fn leads(code: &Code, node: u32, wanted: Wanted) -> bool
    requires node { node < length (nodes_of (script_of code.now)) }
    requires wanted { IsInside wanted (script_of code.now) }
    ensures { Decides result (LeadsTo (script_of code.now) wanted node) }
{
    if is_wanted(code, node, wanted) {
        return true;
    }
    for at in 0..code.parts(node) {
        if let Some(next) = passed(code, node, at) {
            if leads(code, next, wanted) {
                return true;
            }
        }
    }
    false
}

/// Whether this node is looked for.
fn is_wanted(code: &Code, node: u32, wanted: Wanted) -> bool
    requires { node < length (nodes_of (script_of code.now)) }
    ensures { result ≡ is_wanted wanted (script_of code.now) node }
{
    match wanted {
        Wanted::Node(wanted) => node == wanted,
        Wanted::Entering => enters_body(code.kind(node)),
        Wanted::NameCall => matches!(code.kind(node), NodeForm::Call(_)),
    }
}

/// Whether a node enters a body with no frame around it.
fn enters_body(form: &NodeForm) -> bool
    ensures { result ≡ enters_body form.now }
{
    match form {
        NodeForm::Call(_) => true,
        NodeForm::Method(_, name) => is_call_method(name.as_slice()),
        _ => false,
    }
}

/// The node that a part, or the value in it, puts in the place of its node, and `None` exactly where the node puts up a frame
/// around it or has no such part.
fn passed(code: &Code, node: u32, at: u32) -> Option<u32>
    requires { node < length (nodes_of (script_of code.now)) }
    ensures passed { result ≡ passed (script_of code.now) node at }
    ensures behind { IfSome result (λ next. (node < next) × (next < length (nodes_of (script_of code.now)))) }
{
    let part = code.part(node, at);
    if passes_part(code.kind(node), part_form(code, node, at)) {
        return part;
    }
    if !passes_inner(code.kind(node), part_form(code, node, at)) {
        return None;
    }
    match part {
        None => None,
        Some(part) => code.part(part, 1),
    }
}

/// Whether a node of this form puts up no frame around a part of that form.
fn passes_part(form: &NodeForm, part: Option<&NodeForm>) -> bool
    ensures { result ≡ passes_part form.now (form_or_block (option_copied part.entry)) }
{
    match form {
        NodeForm::Evaluate => true,
        NodeForm::If => !is_arm(part),
        NodeForm::Chosen => !is_choice(part),
        _ => false,
    }
}

/// Whether a node of this form puts up no frame around the second part of a part of that form.
fn passes_inner(form: &NodeForm, part: Option<&NodeForm>) -> bool
    ensures { result ≡ passes_inner form.now (form_or_block (option_copied part.entry)) }
{
    match form {
        NodeForm::If => is_arm(part),
        NodeForm::Chosen => is_if_true(part),
        _ => false,
    }
}
