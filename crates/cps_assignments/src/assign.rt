//! What is done with a target once what it is of is known, and once its value is.

ghost use Rattle.std.specs.Prelude.{◌≡◌, ◌<◌, ◌∷◌, ◌++◌, [], ℕ, IfOk, length, true};
ghost use Rattle.model_values.specs.Fitting.{There};
ghost use Rattle.model_run.specs.Around.{form_at};
ghost use Rattle.model_run.specs.Assignments.{assign_by, assign_value, at_target, operator_in, read_target, sign_operator, step_by};
ghost use Rattle.cps_assignments.specs.Targets.{HasAssignment, TargetStands, kept_size, stepped};
ghost use Rattle.model_run.specs.Forms.{after};
ghost use Rattle.model_run.specs.FrameTable.{is_assignment};
ghost use Rattle.model_run.specs.Nesting.{shape_at};
ghost use Rattle.model_run.specs.declared.frame.FrameKind.TheVariants as kind;
ghost use Rattle.cps_code.specs.Script.{script_of};
ghost use Rattle.cps_frames.specs.Changes.{Done};
ghost use Rattle.cps_frames.specs.Moves.{ComesTo};
ghost use Rattle.cps_frames.specs.Order.{rank};
ghost use Rattle.cps_frames.specs.Places.{MayGoOn};
ghost use Rattle.cps_frames.specs.Standing.{common_of, standing};
ghost use Rattle.cps_frames.specs.declared.thread.ThreadState.{ThreadState as Thread};

use crate::targets::{count_suffix, place_size, read_target, write_target};
use cps_frames::{Halt, Move, Shared, ThreadState, tick, under, value_of};
use cps_variables::kept_value;
use model_run::{Ending, Entry, Frame, FrameKind};
use model_syntax::{AssignSign, NodeForm};
use model_values::{Env, Op, Value, Values};
use value_operators::{apply, decremented, incremented};
use value_view::OpRefusal;

/// The operator of a sign that reads its target too.
pub(crate) fn sign_operator(sign: AssignSign) -> Option<Op>
    ensures { result ≡ sign_operator sign }
{
    match sign {
        AssignSign::Set => None,
        AssignSign::AddTo => Some(Op::Plus),
        AssignSign::SubtractFrom => Some(Op::Minus),
        AssignSign::MultiplyBy => Some(Op::Times),
        AssignSign::ReduceBy => Some(Op::Mod),
    }
}

/// The operator of an assignment that reads its target too.
fn operator_in(form: &NodeForm) -> Option<Op>
    requires { is_assignment form.now ≡ true }
    ensures { result ≡ operator_in form.now }
{
    let NodeForm::Assign(sign) = form else {
        unreachable!()
    };
    sign_operator(*sign)
}

/// The value that is assigned, behind the values that the target needs.
fn assign_value(
    state: &mut ThreadState,
    shared: &Shared,
    node: u32,
    env: Env,
    kept: Values,
) -> Result<Move, Halt>
    requires { HasAssignment (script_of shared.now.code) node }
    ensures { (r : ℕ) → 1 < r → ComesTo node r (λ sh a. assign_value a node sh env kept) (standing shared.now state.old) result (standing shared.now state.new) }
{
    let frame = Frame {
        kind: FrameKind::AssignValue,
        node,
        left: 0,
        env: env.clone()?,
        values: kept,
    };
    under(state, shared, frame, Entry::First, 1, env)
}

/// `++` and `--`: the target is read, and one more or less is written to it.
fn step_by(
    state: &ThreadState,
    shared: &mut Shared,
    node: u32,
    env: Env,
    place: Values,
    is_up: bool,
) -> Result<Move, Halt>
    requires { TargetStands (script_of shared.old.code) (common_of shared.old) node env place }
    ensures { (r : ℕ) → 0 < r → ComesTo node r (λ sh a. step_by (stepped is_up) (form_at sh.parts 0) env place) (standing shared.old state.now) result (standing shared.new state.now) }
{
    count_suffix(shared, node)?;
    let old = read_target(shared, node, &place, &env)?;
    tick(shared)?;
    let new = stepped(shared, &old, is_up)?;
    write_target(shared, node, &place, &env, new)
}

/// One more, or one less.
fn stepped(shared: &mut Shared, value: &Value, is_up: bool) -> Result<Value, OpRefusal>
    requires { There shared.old.heap.cells value.now }
    ensures done { (t : Thread) → Done (λ w. stepped is_up w value.now) (standing shared.old t) result (standing shared.new t) }
    ensures there { IfOk result (There shared.new.heap.cells) }
{
    let alloc = shared.alloc();
    if is_up {
        incremented(alloc, &mut shared.heap, value)
    } else {
        decremented(alloc, &mut shared.heap, value)
    }
}

/// What is done with a target that is of these values.
pub(crate) fn at_target(
    state: &mut ThreadState,
    shared: &mut Shared,
    node: u32,
    env: Env,
    place: Values,
) -> Result<Move, Halt>
    requires { TargetStands (script_of shared.old.code) (common_of shared.old) node env place }
    ensures { (r : ℕ) → 1 < r → ComesTo node r (λ sh a. at_target a node sh env place sh.form) (standing shared.old state.old) result (standing shared.new state.new) }
{
    match shared.code.kind(node) {
        NodeForm::Assign(sign) => match sign_operator(*sign) {
            None => assign_value(state, shared, node, env, place),
            Some(_) => read_first(state, shared, node, env, place),
        },
        NodeForm::Increment => step_by(state, shared, node, env, place, true),
        NodeForm::Decrement => step_by(state, shared, node, env, place, false),
        _ => unreachable!(),
    }
}

/// A target is read, and then the value is evaluated with which an operator joins it.
fn read_first(
    state: &mut ThreadState,
    shared: &mut Shared,
    node: u32,
    env: Env,
    place: Values,
) -> Result<Move, Halt>
    requires stands { TargetStands (script_of shared.old.code) (common_of shared.old) node env place }
    requires assigns { HasAssignment (script_of shared.old.code) node }
    ensures { (r : ℕ) → 1 < r → ComesTo node r (λ sh a. read_target (form_at sh.parts 0) place env (λ old. assign_value a node sh env (place ++ old ∷ []))) (standing shared.old state.old) result (standing shared.new state.new) }
{
    count_suffix(shared, node)?;
    let old = read_target(shared, node, &place, &env)?;
    let mut kept = place;
    kept.push(old)?;
    assign_value(state, shared, node, env, kept)
}

/// A value is assigned, by the operator of the sign where it has one.
fn assign_by(
    state: &ThreadState,
    shared: &mut Shared,
    node: u32,
    env: Env,
    kept: Values,
    value: Value,
) -> Result<Move, Halt>
    requires stands { TargetStands (script_of shared.old.code) (common_of shared.old) node env kept }
    requires assigns { HasAssignment (script_of shared.old.code) node }
    requires read { length kept ≡ kept_size (shape_at (script_of shared.old.code) node) }
    requires value { There shared.old.heap.cells value }
    ensures { (r : ℕ) → 0 < r → ComesTo node r (λ sh a. assign_by (operator_in sh.form) (form_at sh.parts 0) kept env value) (standing shared.old state.now) result (standing shared.new state.now) }
{
    match operator_in(shared.code.kind(node)) {
        None => {
            count_suffix(shared, node)?;
            write_target(shared, node, &kept, &env, value)
        }
        Some(op) => {
            tick(shared)?;
            let old = kept_value(&kept, place_size(&shared.code, node));
            let value = apply(shared.alloc(), &mut shared.heap, op, &old, &value)?;
            write_target(shared, node, &kept, &env, value)
        }
    }
}

/// Behind the value of an assignment.
pub(crate) fn after_assigned(
    state: &ThreadState,
    shared: &mut Shared,
    frame: Frame,
    ending: Ending,
) -> Result<Move, Halt>
    requires may { MayGoOn (standing shared.old state.now) frame ending }
    requires kind { frame.kind ≡ kind.AssignValue }
    ensures { ComesTo frame.node (rank frame) (λ sh a. after frame sh a ending) (standing shared.old state.now) result (standing shared.new state.now) }
{
    let value = value_of(ending)?;
    assign_by(state, shared, frame.node, frame.env, frame.values, value)
}
