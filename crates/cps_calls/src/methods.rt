//! `e.f(..)`: calls of methods.

ghost use Rattle.std.specs.Prelude.{◌≡◌, ◌<◌, ◌&&◌, nat_eq, ℕ, All, IfOk, None, length, true};
ghost use Rattle.std.specs.List.{AllByRecursion as AllAre};
ghost use Rattle.cell_heap.specs.Soundness.{ValueBelow};
ghost use Rattle.cps_code.specs.Script.{script_of};
ghost use Rattle.method_names.specs.Names.{seen as table_method};
ghost use Rattle.model_values.specs.Fitting.{CellsFit, There};
ghost use Rattle.model_values.specs.Kinds.{kind};
ghost use Rattle.model_values.specs.Limits.{product_limits};
ghost use Rattle.model_values.specs.MethodTable.{called_or_none, closure_call, own_call};
ghost use Rattle.model_syntax.specs.declared.node.NodeForm.{NodeForm as Form};
ghost use Rattle.model_values.specs.Methods.{is_walk, walk_call};
ghost use Rattle.model_run.specs.Calls.{call_method, walk_method, walks};
ghost use Rattle.model_run.specs.FrameTable.{is_method};
ghost use Rattle.model_run.specs.Fitting.{closure_rule};
ghost use Rattle.model_run.specs.Forms.{gathered};
ghost use Rattle.model_run.specs.Gathering.{is_call};
ghost use Rattle.model_run.specs.Nesting.{shape_at};
ghost use Rattle.model_run.specs.State.{seeing};
ghost use Rattle.model_run.specs.Terms.{nodes_of, term_at, form_of};
ghost use Rattle.model_run.specs.declared.ending.Entry.TheVariants.{First};
ghost use Rattle.text_methods.specs.Calls.{CallAnswers, CallLeaves, is_collection as is_collection_kind};
ghost use Rattle.value_view.specs.Seen.{seen};
ghost use Rattle.cps_frames.specs.Moves.{ComesTo};
ghost use Rattle.cps_frames.specs.Places.{MayEnter};
ghost use Rattle.cps_frames.specs.Standing.{standing, world_of};
ghost use Rattle.cps_frames.specs.declared.thread.ThreadState.{ThreadState as Thread};
ghost use Rattle.cps_calls.specs.Calls.{CallFits, IsCalled, called_closure, method_name};
ghost use Rattle.cps_calls.specs.Kinds.{is_null_kind, is_null_safe};

use crate::closures::closure_of;
use crate::effects::throw_with;
use crate::kept::split_first;
use crate::walks::{WalkAt, begin_turn};
use cps_code::Code;
use cps_frames::{Halt, Move, Shared, ThreadState, tick};
use list_methods::call as call_of_collection;
use method_names::Method;
use model_run::{Callee, Ending, Entry};
use model_syntax::{Access, NodeForm};
use model_values::{Env, Value, Values};
use std::alloc::AllocError;
use text_methods::call as call_of_single;
use value_ops::{Effect, bad_argument, no_method};
use value_view::{Kind, OpRefusal, kind_of};
use value_walks::Walk;

/// What a call of a method comes to that the value has not without a closure.
#[derive(Drop)]
pub(crate) enum ClosureCall {
    /// The closure that the value is.
    Calls(Callee),
    /// A walk over the value with the closure in this cell.
    Walks(Walk, u32),
    Throws(Effect),
}

/// `e.f(..)` behind its arguments, the value of `e` in front of them; `e?.f(..)` gives null on null.
pub fn method_step(
    state: &mut ThreadState,
    shared: &mut Shared,
    node: u32,
    env: Env,
    values: Values,
) -> Result<Move, Halt>
    requires may { MayEnter (standing shared.old state.old) First node env }
    requires form { is_method (shape_at (script_of shared.old.code) node).form ≡ true }
    requires values { AllAre (There shared.old.heap.cells) values }
    requires some { 0 < length values }
    ensures { (r : ℕ) → 0 < r → ComesTo node r (λ sh a. gathered a node env sh sh.form values) (standing shared.old state.old) result (standing shared.new state.new) }
{
    let Some((on, arguments)) = split_first(values) else {
        unreachable!()
    };
    if is_null_safe(&shared.code, node) && is_null(&kind_of(&shared.heap, &on)) {
        tick(shared)?;
        return Ok(Move::Ends(Ending::Normal(Value::Null)));
    }
    call_method(state, shared, node, env, on, arguments)
}

/// Whether a call of a method gives null on null.
fn is_null_safe(code: &Code, node: u32) -> bool
    requires { node < length (nodes_of (script_of code.now)) }
    ensures { result ≡ is_null_safe (form_of (term_at (script_of code.now) node)) }
{
    matches!(code.kind(node), NodeForm::Method(Access::NullSafe, _))
}

fn is_null(kind: &Kind<'_>) -> bool
    ensures { result ≡ is_null_kind (seen kind.now) }
{
    matches!(kind, Kind::Null)
}

/// The method of a node is called on a value with these arguments, which is counted.
pub(crate) fn call_method(
    state: &mut ThreadState,
    shared: &mut Shared,
    node: u32,
    env: Env,
    on: Value,
    arguments: Values,
) -> Result<Move, Halt>
    requires node { node < length (nodes_of (script_of shared.old.code)) }
    requires called { is_call (shape_at (script_of shared.old.code) node).form ≡ true }
    requires cells { CellsFit (closure_rule (script_of shared.old.code)) shared.old.heap.cells }
    requires on { ValueBelow (length shared.old.heap.cells) on }
    requires arguments { All (ValueBelow (length shared.old.heap.cells)) arguments }
    ensures { (r : ℕ) → 0 < r → ComesTo node r (λ sh a. seeing (call_method a node sh env (method_name sh.form) on arguments)) (standing shared.old state.old) result (standing shared.new state.new) }
{
    tick(shared)?;
    if let Some(value) = own_call(shared, node, &on, arguments.as_slice())? {
        return Ok(Move::Ends(Ending::Normal(value)));
    }
    match closure_call(shared, node, &on, arguments.as_slice())? {
        ClosureCall::Calls(callee) => {
            Ok(Move::Enter(Entry::Body(arguments), callee.node, callee.env))
        }
        ClosureCall::Walks(walk, closure) => {
            let closure = Value::Cell(closure);
            let at = 0;
            begin_turn(
                state,
                shared,
                WalkAt {
                    node,
                    env,
                    walk,
                    on,
                    closure,
                    at,
                },
            )
        }
        ClosureCall::Throws(effect) => Err(Halt::from(throw_with(shared, effect))),
    }
}

/// What a method gives that takes no closure, and `None` exactly where the value has none of this name with so many arguments.
fn own_call(
    shared: &mut Shared,
    node: u32,
    on: &Value,
    arguments: &[Value],
) -> Result<Option<Value>, OpRefusal>
    requires node { node < length (nodes_of (script_of shared.old.code)) }
    requires called { is_call (form_of (term_at (script_of shared.old.code) node)) ≡ true }
    requires on { ValueBelow (length shared.old.heap.cells) on.now }
    requires arguments { All (ValueBelow (length shared.old.heap.cells)) arguments.now }
    ensures answer { CallAnswers (own_call product_limits shared.old.heap.cells on.now (method_name (form_of (term_at (script_of shared.old.code) node))) arguments.now shared.old.count) shared.old.heap shared.new.heap shared.old.count shared.new.count result }
    ensures leaves { CallLeaves shared.old.heap shared.new.heap result }
    ensures rest { shared.new ≡ record shared.old { heap = shared.new.heap; count = shared.new.count } }
{
    let alloc = shared.alloc();
    let is_collection = is_collection(&kind_of(&shared.heap, on));
    let name = method_name(&shared.code, node);
    let heap = &mut shared.heap;
    let count = &mut shared.count;
    if is_collection {
        call_of_collection(alloc, heap, on, name, arguments, count)
    } else {
        call_of_single(alloc, heap, on, name, arguments, count)
    }
}

/// What a call of a method comes to that the value has not without a closure.
fn closure_call(
    shared: &Shared,
    node: u32,
    on: &Value,
    arguments: &[Value],
) -> Result<ClosureCall, AllocError>
    requires node { node < length (nodes_of (script_of shared.now.code)) }
    requires called { is_call (form_of (term_at (script_of shared.now.code) node)) ≡ true }
    requires on { ValueBelow (length shared.now.heap.cells) on.now }
    requires arguments { All (ValueBelow (length shared.now.heap.cells)) arguments.now }
    ensures called { (t : Thread) (n : ℕ) → IfOk result (IsCalled (world_of shared.now t) (form_of (term_at (script_of shared.now.code) node)) n (called_or_none product_limits shared.now.heap.cells None (closure_call product_limits shared.now.heap.cells on.now (method_name (form_of (term_at (script_of shared.now.code) node))) arguments.now n) (kind shared.now.heap.cells on.now) (method_name (form_of (term_at (script_of shared.now.code) node))) n)) }
    ensures fits { IfOk result (CallFits shared.now.heap.cells) }
{
    let kind = kind_of(&shared.heap, on);
    let name = method_name(&shared.code, node);
    let Some(method) = Method::named(name) else {
        let refusal = no_method(shared.alloc(), &kind, name)?;
        return Ok(ClosureCall::Throws(refusal));
    };
    if let Some(callee) = called_closure(shared, method, on)? {
        return Ok(ClosureCall::Calls(callee));
    }
    if is_walk_call(&kind, method, arguments) {
        return walk_with(shared, method, &arguments[0]);
    }
    let refusal = no_method(shared.alloc(), &kind, name)?;
    Ok(ClosureCall::Throws(refusal))
}

/// The closure that a value is, where the method is `call`.
fn called_closure(shared: &Shared, method: Method, on: &Value) -> Result<Option<Callee>, AllocError>
    requires { ValueBelow (length shared.now.heap.cells) on.now }
    ensures { (t : Thread) → IfOk result (λ callee. callee ≡ called_closure (table_method method) (world_of shared.now t) on.now) }
{
    match method {
        Method::Call => closure_of(shared, on),
        _ => Ok(None),
    }
}

/// Whether a method walks over a value of this kind with its one argument.
fn is_walk_call(kind: &Kind<'_>, method: Method, arguments: &[Value]) -> bool
    ensures { result ≡ (nat_eq (length arguments.now) 1 && is_walk (seen kind.now) (table_method method)) }
{
    arguments.len() == 1 && is_walk(kind, method)
}

/// A walk by a method with its argument, which has to be a closure.
fn walk_with(shared: &Shared, method: Method, closure: &Value) -> Result<ClosureCall, AllocError>
    requires closure { ValueBelow (length shared.now.heap.cells) closure.now }
    requires walks { walks (table_method method) ≡ true }
    ensures called { (t : Thread) (n : ℕ) (f : Form) → walk_method f ≡ table_method method → IfOk result (IsCalled (world_of shared.now t) f n (walk_call product_limits shared.now.heap.cells (table_method method) (kind shared.now.heap.cells closure.now) n)) }
    ensures fits { IfOk result (CallFits shared.now.heap.cells) }
{
    let alloc = shared.alloc();
    let Some(walk) = Walk::begun(alloc, method) else {
        unreachable!()
    };
    match kind_of(&shared.heap, closure) {
        Kind::Closure(cell) => Ok(ClosureCall::Walks(walk, cell)),
        _ => Ok(ClosureCall::Throws(bad_argument(alloc)?)),
    }
}

/// The name of the method that a node calls: a call of a name calls the method `call` of a variable's value.
fn method_name(code: &Code, node: u32) -> &[u8]
    requires node { node < length (nodes_of (script_of code.now)) }
    requires called { is_call (form_of (term_at (script_of code.now) node)) ≡ true }
    ensures { result.now ≡ method_name (form_of (term_at (script_of code.now) node)) }
{
    match code.kind(node) {
        NodeForm::Method(_, name) => name.as_slice(),
        NodeForm::Call(_) => b"call",
        _ => unreachable!(),
    }
}

/// Whether a value is a list or a map.
fn is_collection(kind: &Kind<'_>) -> bool
    ensures { result ≡ is_collection_kind (seen kind.now) }
{
    matches!(kind, Kind::List(_, _) | Kind::Map(_, _))
}

/// Whether a method walks over a value of this kind with a closure.
fn is_walk(kind: &Kind<'_>, method: Method) -> bool
    ensures { result ≡ is_walk (seen kind.now) (table_method method) }
{
    match kind {
        Kind::List(_, _) | Kind::Map(_, _) => matches!(
            method,
            Method::Each
                | Method::Collect
                | Method::Find
                | Method::FindAll
                | Method::Any
                | Method::Every
        ),
        Kind::Number(_) => method == Method::Times,
        _ => false,
    }
}
