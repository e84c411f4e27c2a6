//! What may stand inside what.

ghost use Rattle.std.specs.Prelude.{◌≡◌, ◌<◌, ◌&&◌, nat_eq, true, length};
ghost use Rattle.model_run.specs.FrameTable.{is_closure_form, is_function_form};
ghost use Rattle.model_run.specs.Nesting.{Begun, CallsByName, Enters, IsClosureAt, part_number, shape_at, spot};
ghost use Rattle.model_run.specs.Terms.{nodes_of};
ghost use Rattle.model_run.specs.declared.frame.Frame.{Frame as Held};
ghost use Rattle.cps_code.specs.Script.{script_of};
ghost use Rattle.frame_rows.specs.Leading.{Decides, is_body, is_branch, may_ask, spot_seen};
ghost use Rattle.frame_rows.specs.Rows.{within_seen};

use crate::Within;
use crate::leading::{Wanted, may_lead};
use cps_code::Code;
use model_run::{FrameKind, Request};
use model_syntax::NodeForm;

/// What is being evaluated, or waited for, at a place inside frames.
#[derive(Clone, Copy, Debug, PartialEq, Eq)]
pub enum Spot {
    /// This node, from its beginning, in a further turn, or as a suffix on a value.
    Begun(u32),
    /// The body of any closure or function.
    AnyBody,
    /// The body of the closure at this node.
    BodyOf(u32),
    /// Any branch of a `parallel`.
    AnyBranch,
    /// A wait for an executor.
    Executor,
    /// A wait for a task.
    Task,
    /// A wait for a person.
    Person,
    /// A wait for branches.
    Branches,
}

/// What stands inside a frame at this node whose row says this.
pub fn spot_in(code: &Code, node: u32, within: Within) -> Spot
    requires { node < length (nodes_of (script_of code.now)) }
    ensures { spot_seen result ≡ spot (script_of code.now) node (within_seen within) }
{
    match within {
        Within::Part(at) | Within::Suffix(at) => Spot::Begun(part_number(code, node, at)),
        Within::Inner(at, inner) => Spot::Begun(inner_number(code, node, at, inner)),
        Within::Called => Spot::AnyBody,
        Within::OwnBody => Spot::BodyOf(node),
        Within::Executor => Spot::Executor,
        Within::Task => Spot::Task,
        Within::Person => Spot::Person,
        Within::Branches => Spot::Branches,
    }
}

/// The number of a part of a node; of one that is missing, how many nodes there are.
fn part_number(code: &Code, node: u32, at: u32) -> u32
    requires { node < length (nodes_of (script_of code.now)) }
    ensures { result ≡ part_number (script_of code.now) node at }
{
    match code.part(node, at) {
        None => code.len(),
        Some(part) => part,
    }
}

/// The number of a part of a part of a node; of one that is missing, how many nodes there are.
fn inner_number(code: &Code, node: u32, at: u32, inner: u32) -> u32
    requires { node < length (nodes_of (script_of code.now)) }
    ensures { result ≡ part_number (script_of code.now) (part_number (script_of code.now) node at) inner }
{
    match code.part(node, at) {
        None => code.len(),
        Some(part) => part_number(code, part, inner),
    }
}

/// Whether a frame of this kind at this node may stand at a spot. It goes over the nodes that stand in the place of the spot's.
pub fn may_stand(code: &Code, kind: FrameKind, node: u32, spot: Spot) -> bool
    requires { node < length (nodes_of (script_of code.now)) }
    ensures { (frame : Held) → frame.kind ≡ kind → frame.node ≡ node → Decides result (Enters (script_of code.now) frame (spot_seen spot)) }
{
    match spot {
        Spot::Begun(outer) => may_begin(code, kind, node, outer),
        Spot::AnyBody => is_body(kind),
        Spot::BodyOf(closure) => is_body_at(kind, node, closure),
        Spot::AnyBranch => is_branch(kind),
        Spot::Executor => false,
        Spot::Task => false,
        Spot::Person => false,
        Spot::Branches => false,
    }
}

/// Whether a frame of this kind at this node may stand where another node is evaluated.
fn may_begin(code: &Code, kind: FrameKind, node: u32, outer: u32) -> bool
    requires { node < length (nodes_of (script_of code.now)) }
    ensures { (frame : Held) → frame.kind ≡ kind → frame.node ≡ node → Decides result (Enters (script_of code.now) frame (Begun outer)) }
{
    if is_branch(kind) {
        false
    } else if is_body(kind) {
        may_lead(code, outer, Wanted::Entering)
    } else {
        may_lead(code, outer, Wanted::Node(node))
    }
}

/// Whether this is the kind of the body of a closure or function.
fn is_body(kind: FrameKind) -> bool
    ensures { result ≡ is_body kind }
{
    matches!(kind, FrameKind::CallBody)
}

/// Whether this is the kind of a body, and the node is that closure.
fn is_body_at(kind: FrameKind, node: u32, closure: u32) -> bool
    ensures { result ≡ (is_body kind && nat_eq node closure) }
{
    is_body(kind) && node == closure
}

/// Whether this is the kind of a branch's closure.
fn is_branch(kind: FrameKind) -> bool
    ensures { result ≡ is_branch kind }
{
    matches!(kind, FrameKind::BranchBody)
}

/// Whether the body of a frame at this node may be what is called at a spot: what a step or a walk calls is a closure, and a
/// function is called by its name alone.
pub fn may_be_called(code: &Code, node: u32, spot: Spot) -> bool
    requires { node < length (nodes_of (script_of code.now)) }
    ensures { (frame : Held) → frame.node ≡ node → Decides result (IsClosureAt (script_of code.now) (spot_seen spot) frame) }
{
    match spot {
        Spot::AnyBody => is_closure(code.kind(node)),
        Spot::Begun(outer) => is_named_so(code, node, outer),
        Spot::BodyOf(_) => true,
        Spot::AnyBranch => true,
        Spot::Executor => true,
        Spot::Task => true,
        Spot::Person => true,
        Spot::Branches => true,
    }
}

/// Whether a node is a closure.
fn is_closure(form: &NodeForm) -> bool
    ensures { result ≡ is_closure_form form.now }
{
    matches!(form, NodeForm::Closure(_))
}

/// Whether a node is a function.
fn is_function(form: &NodeForm) -> bool
    ensures { result ≡ is_function_form form.now }
{
    matches!(form, NodeForm::Function(_, _))
}

/// Whether a node is called by a name where another node is evaluated, in case that it is a function.
fn is_named_so(code: &Code, node: u32, outer: u32) -> bool
    requires { node < length (nodes_of (script_of code.now)) }
    ensures { Decides result (is_function_form (shape_at (script_of code.now) node).form ≡ true → CallsByName (script_of code.now) outer) }
{
    if is_function(code.kind(node)) {
        may_lead(code, outer, Wanted::NameCall)
    } else {
        true
    }
}

/// Whether a thread may wait for a request of this kind at a spot.
pub fn may_ask(spot: Spot, request: &Request) -> bool
    ensures { result ≡ may_ask (spot_seen spot) request.now }
{
    match spot {
        Spot::Executor => matches!(request, Request::Node { .. }),
        Spot::Task => matches!(request, Request::Task { .. }),
        Spot::Person => matches!(request, Request::Input { .. }),
        Spot::Begun(_) => false,
        Spot::AnyBody => false,
        Spot::BodyOf(_) => false,
        Spot::AnyBranch => false,
        Spot::Branches => false,
    }
}
