//! The methods that walk over a value with a closure.

ghost use Rattle.std.specs.Prelude.{◌≡◌, ◌<◌, ◌^◌, Bool, IfSome, ℕ, is_some, length, nat_eq, option_map, true};
ghost use Rattle.cps_code.specs.Script.{script_of};
ghost use Rattle.method_names.specs.Names.{seen as table_method};
ghost use Rattle.model_values.specs.Limits.{product_limits};
ghost use Rattle.model_values.specs.MethodNames.{method_named};
ghost use Rattle.model_values.specs.Walks.{turn as element_at};
ghost use Rattle.model_run.specs.Around.{position};
ghost use Rattle.model_run.specs.Callables.{closure_of, parameters_of};
ghost use Rattle.model_run.specs.Calls.{takes_two, walk, walk_method, walk_turn, walks};
ghost use Rattle.model_run.specs.FrameTable.{is_callable, is_method, is_walk};
ghost use Rattle.model_run.specs.Forms.{after, enter, turn};
ghost use Rattle.model_run.specs.Nesting.{shape_at};
ghost use Rattle.model_run.specs.Terms.{form_of, nodes_of, term_at};
ghost use Rattle.model_run.specs.declared.ending.Entry.TheVariants.{Turn};
ghost use Rattle.model_run.specs.declared.frame.FrameKind.TheVariants as kind;
ghost use Rattle.value_walks.specs.Turns.{has_turn};
ghost use Rattle.value_walks.specs.Walking.{kept_between, walk_kept, walk_method as method_of};
ghost use Rattle.cps_frames.specs.Moves.{ComesTo};
ghost use Rattle.cps_frames.specs.Places.{MayEnter, MayGoOn};
ghost use Rattle.cps_frames.specs.Standing.{standing, world_of};
ghost use Rattle.cps_calls.specs.Calls.{method_name};
ghost use Rattle.cps_calls.specs.Turns.{GoesOnTo};
ghost use Rattle.cps_calls.specs.Walking.{IsCount, WalkStands};

use crate::closures::closure_of;
use crate::effects::end_with;
use crate::parameters::parameter_count;
use cps_code::Code;
use cps_frames::{Halt, Move, Shared, ThreadState, tick, value_of};
use cps_variables::{kept_value, value_at};
use method_names::Method;
use model_run::{Callee, Ending, Entry, Frame, FrameKind};
use model_syntax::NodeForm;
use model_values::{Env, Value, Values};
use value_walks::{Next, Tail, Walk, WalkInTurn, has_walk_turn, walk_turn as turn_of_walk};

/// A walk at a node before turn `at`, counted from 0: over this value with this closure.
#[derive(Drop)]
pub(crate) struct WalkAt {
    pub(crate) node: u32,
    pub(crate) env: Env,
    pub(crate) walk: Walk,
    pub(crate) on: Value,
    pub(crate) closure: Value,
    pub(crate) at: u32,
}

/// Turn `at` of a walk at a node, whose kept values are the value over which it goes, its closure, and what it has kept so far. A
/// method that walks over nothing, and what is no closure, give null, as the definitions have it.
pub fn walk_turn(
    state: &mut ThreadState,
    shared: &mut Shared,
    node: u32,
    env: Env,
    at: u32,
    kept: Values,
) -> Result<Move, Halt>
    requires may { MayEnter (standing shared.old state.old) (Turn at kept) node env }
    requires form { is_method (shape_at (script_of shared.old.code) node).form ≡ true }
    ensures { (r : ℕ) → 0 < r → ComesTo node r (λ sh a. turn a node sh env at kept sh.form) (standing shared.old state.old) result (standing shared.new state.new) }
{
    let on = value_at(&kept, 0);
    let closure = value_at(&kept, 1);
    match walk_behind(&shared.code, node, Tail::behind(kept, 2)) {
        None => Ok(Move::Ends(Ending::Normal(Value::Null))),
        Some(walk) => match closure_of(shared, &closure)? {
            None => Ok(Move::Ends(Ending::Normal(Value::Null))),
            Some(_) => begin_turn(
                state,
                shared,
                WalkAt {
                    node,
                    env,
                    walk,
                    on,
                    closure,
                    at,
                },
            ),
        },
    }
}

/// The walk of a node that has kept these values so far, and `None` exactly where its method walks over nothing.
fn walk_behind(code: &Code, node: u32, kept: Tail) -> Option<Walk>
    requires node { node < length (nodes_of (script_of code.now)) }
    requires form { is_method (form_of (term_at (script_of code.now) node)) ≡ true }
    ensures walks { is_some result ≡ walks (walk_method (form_of (term_at (script_of code.now) node))) }
    ensures method { IfSome result (λ walk. method_of walk ≡ walk_method (form_of (term_at (script_of code.now) node))) }
    ensures kept { IfSome result (λ walk. walk_kept walk ≡ kept_between (walk_method (form_of (term_at (script_of code.now) node))) kept) }
{
    match called_method(code, node) {
        None => None,
        Some(method) => Walk::of(method, kept),
    }
}

/// A further turn of a walk at a node, counted from 0, with the values that the walk has kept. `Halt::Limit` where 1,000,000 nodes were
/// evaluated for this event or a limit of the heap would be passed, and `Halt::Memory` where the memory was refused.
pub fn again(
    state: &mut ThreadState,
    shared: &mut Shared,
    node: u32,
    at: u32,
    kept: Values,
    env: Env,
) -> Result<Move, Halt>
    requires may { MayEnter (standing shared.old state.old) (Turn at kept) node env }
    requires form { is_method (shape_at (script_of shared.old.code) node).form ≡ true }
    ensures { ComesTo node (2 ^ 66) (λ sh a. enter (Turn at kept) a node sh env) (standing shared.old state.old) result (standing shared.new state.new) }
{
    walk_turn(state, shared, node, env, at, kept)
}

/// The next turn of a walk, which reads its place as the value is then; past the end the walk gives what it gives.
pub(crate) fn begin_turn(
    state: &mut ThreadState,
    shared: &mut Shared,
    place: WalkAt,
) -> Result<Move, Halt>
    requires stands { WalkStands (script_of shared.old.code) shared.old.heap.cells place }
    ensures { (r : ℕ) → 0 < r → ComesTo place.node r (λ sh a. walk a place.node place.env (walk_method sh.form) place.at place.on place.closure (walk_kept place.walk)) (standing shared.old state.old) result (standing shared.new state.new) }
{
    let Some(callee) = closure_of(shared, &place.closure)? else {
        unreachable!()
    };
    if has_walk_turn(&shared.heap, &place.on, place.at) {
        return run_turn(state, shared, place, callee);
    }
    let alloc = shared.alloc();
    let value = place.walk.at_end(alloc, &mut shared.heap, &place.on)?;
    Ok(Move::Ends(Ending::Normal(value)))
}

/// A turn that is there counts as it begins, and the cells that it needs are made with it; then its closure runs.
fn run_turn(
    state: &mut ThreadState,
    shared: &mut Shared,
    place: WalkAt,
    callee: Callee,
) -> Result<Move, Halt>
    requires stands { WalkStands (script_of shared.old.code) shared.old.heap.cells place }
    requires callee { callee.node < length (nodes_of (script_of shared.old.code)) }
    requires callable { is_callable (form_of (term_at (script_of shared.old.code) callee.node)) ≡ true }
    requires has { (two : Bool) → has_turn (element_at product_limits shared.old.heap.cells place.on two place.at) ≡ true }
    requires small { place.at < 2 ^ 31 }
    ensures { (r : ℕ) → 0 < r → ComesTo place.node r (λ sh a. walk_turn a place.node place.env (walk_method sh.form) place.at place.on place.closure (walk_kept place.walk) callee (element_at product_limits shared.old.heap.cells place.on (takes_two (world_of shared.old state.old) callee) place.at)) (standing shared.old state.old) result (standing shared.new state.new) }
{
    tick(shared)?;
    let alloc = shared.alloc();
    let two = takes_two(&shared.code, callee.node);
    let Some(turn) = turn_of_walk(alloc, &mut shared.heap, &place.on, two, place.at)? else {
        unreachable!()
    };
    let front = Values::from_slice(
        alloc,
        &[place.on, place.closure, Value::Int(place.at as i32)],
    )?;
    let frame = Frame {
        kind: FrameKind::WalkTurn,
        node: place.node,
        left: 0,
        env: place.env,
        values: place.walk.in_turn(&turn).into_values(front)?,
    };
    state.push(frame)?;
    let arguments = turn.arguments.into_values(alloc)?;
    Ok(Move::Enter(Entry::Body(arguments), callee.node, callee.env))
}

/// The closure of a turn has ended: the walk goes into its next turn at once, or gives what it gives. What it has kept
/// moves from the frame of the one turn into that of the next.
pub(crate) fn after_walk_turn(
    state: &mut ThreadState,
    shared: &mut Shared,
    frame: Frame,
    ending: Ending,
) -> Result<Move, Halt>
    requires may { MayGoOn (standing shared.old state.old) frame ending }
    requires kind { frame.kind ≡ kind.WalkTurn }
    ensures { GoesOnTo frame ending (standing shared.old state.old) result (standing shared.new state.new) }
{
    let value = value_of(ending)?;
    let alloc = shared.alloc();
    let on = kept_value(&frame.values, 0);
    let closure = kept_value(&frame.values, 1);
    let at = place_of(&kept_value(&frame.values, 2));
    let method = walk_method(&shared.code, frame.node);
    let walk = WalkInTurn::of(&shared.heap, method, &on, Tail::behind(frame.values, 3));
    match walk.after(alloc, &shared.heap, &value)? {
        Next::GoesOn(walk) => begin_turn(
            state,
            shared,
            WalkAt {
                node: frame.node,
                env: frame.env,
                walk,
                on,
                closure,
                at: at + 1,
            },
        ),
        Next::Ends(effect) => end_with(shared, effect),
    }
}

/// The method of a node that walks.
fn walk_method(code: &Code, node: u32) -> Method
    requires node { node < length (nodes_of (script_of code.now)) }
    requires walks { is_walk (form_of (term_at (script_of code.now) node)) ≡ true }
    ensures { table_method result ≡ walk_method (form_of (term_at (script_of code.now) node)) }
{
    let Some(method) = called_method(code, node) else {
        unreachable!()
    };
    method
}

/// The method that a node calls by its name, and `None` exactly where no method has this name.
fn called_method(code: &Code, node: u32) -> Option<Method>
    requires node { node < length (nodes_of (script_of code.now)) }
    requires form { is_method (form_of (term_at (script_of code.now) node)) ≡ true }
    ensures { option_map table_method result ≡ method_named (method_name (form_of (term_at (script_of code.now) node))) }
{
    let NodeForm::Method(_, name) = code.kind(node) else {
        unreachable!()
    };
    Method::named(name.as_slice())
}

/// Whether a closure has two parameters.
fn takes_two(code: &Code, node: u32) -> bool
    requires node { node < length (nodes_of (script_of code.now)) }
    requires callable { is_callable (form_of (term_at (script_of code.now) node)) ≡ true }
    ensures { result ≡ nat_eq (length (parameters_of (form_of (term_at (script_of code.now) node)))) 2 }
{
    parameter_count(code.kind(node)) == 2
}

/// The position that a frame keeps.
fn place_of(value: &Value) -> u32
    requires { IsCount value.now }
    ensures place { result ≡ position value.now }
    ensures small { result < 2 ^ 31 }
{
    match value {
        Value::Int(at) => *at as u32,
        _ => unreachable!(),
    }
}
