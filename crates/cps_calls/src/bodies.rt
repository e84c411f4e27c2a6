//! The bodies of closures and functions.

ghost use Rattle.std.specs.Prelude.{◌≡◌, ◌<◌, ◌^◌, ℕ, All, Err, MatchResult, codes, length, true};
ghost use Rattle.cell_heap.specs.Soundness.{ValueBelow};
ghost use Rattle.model_values.specs.Kinds.{closure};
ghost use Rattle.model_values.specs.Throws.{no_method};
ghost use Rattle.cps_code.specs.Script.{script_of};
ghost use Rattle.model_run.specs.Around.{arity, cells, ended, limits};
ghost use Rattle.model_run.specs.Callables.{after_call, call_limit, opened, parameters_of, plain};
ghost use Rattle.model_run.specs.FrameTable.{is_callable};
ghost use Rattle.model_run.specs.Forms.{body_of};
ghost use Rattle.model_run.specs.Nesting.{shape_at};
ghost use Rattle.model_run.specs.State.{operating};
ghost use Rattle.model_run.specs.Terms.{nodes_of};
ghost use Rattle.model_run.specs.declared.ending.Entry.TheVariants.{Body};
ghost use Rattle.cps_frames.specs.Changes.{Done, Passed, Met};
ghost use Rattle.cps_frames.specs.Moves.{Comes, ComesTo};
ghost use Rattle.cps_frames.specs.Places.{MayEnter};
ghost use Rattle.cps_frames.specs.Standing.{standing};
ghost use Rattle.cps_frames.specs.Ways.{is_block_ending};
ghost use Rattle.cps_frames.specs.declared.shared.Shared.{Shared as Common};
ghost use Rattle.cps_frames.specs.declared.thread.ThreadState.{ThreadState as Thread};
ghost use Rattle.cps_calls.specs.Calls.{body_of_values};

use crate::effects::throw_with;
use crate::parameters::{arguments_for, bind_parameters};
use crate::variables::new_variables;
use cps_frames::{Halt, Move, Shared, ThreadState, under};
use model_run::{Ending, Entry, Frame, FrameKind};
use model_values::{Env, LimitKind, Value, Values};
use value_ops::no_method;
use value_view::{Kind, OpRefusal};

/// The most calls that are open in one green thread.
const MAX_CALLS: u32 = 1024;

/// The body of the closure or function at a node, with these arguments: each parameter is a new variable. Any number of arguments
/// but that of the parameters throws; a single parameter is null where there is no argument.
///
/// `Halt::Limit` where 1,024 calls are open in the thread, and where the new variables pass a limit of the heap; `Halt::Memory`
/// where the memory was refused.
pub fn enter_call(
    state: &mut ThreadState,
    shared: &mut Shared,
    node: u32,
    env: Env,
    arguments: Values,
) -> Result<Move, Halt>
    requires may { MayEnter (standing shared.old state.old) (Body arguments) node env }
    ensures { ComesTo node (2 ^ 66) (λ sh a. body_of a node sh env arguments sh.form) (standing shared.old state.old) result (standing shared.new state.new) }
{
    match arguments_for(shared.code.kind(node), arguments)? {
        None => refuse_arguments(shared),
        Some(values) => {
            open_call(state)?;
            run_with(state, shared, node, env, values)
        }
    }
}

/// The throw of a call with another number of arguments than the closure or function has parameters.
fn refuse_arguments(shared: &mut Shared) -> Result<Move, Halt>
    ensures { (t : Thread) (k r : ℕ) → 0 < r → ComesTo k r (λ sh a. operating (λ w. no_method (limits w) (cells w) (closure 0) (codes "call")) ended) (standing shared.old t) result (standing shared.new t) }
{
    Err(Halt::from(throw_unfit(shared)))
}

/// Throws that there is no such call, with another number of arguments than there are parameters: it gives the throwable, or why there
/// is none.
pub(crate) fn throw_unfit(shared: &mut Shared) -> OpRefusal
    ensures { (t : Thread) → Done (λ w. no_method (limits w) (cells w) (closure 0) (codes "call")) (standing shared.old t) (Err result) (standing shared.new t) }
{
    match no_method(shared.alloc(), &Kind::Closure(0), b"call") {
        Ok(effect) => throw_with(shared, effect),
        Err(_) => OpRefusal::Memory,
    }
}

/// The body, with a new variable for each parameter.
fn run_with(
    state: &mut ThreadState,
    shared: &mut Shared,
    node: u32,
    env: Env,
    values: Values,
) -> Result<Move, Halt>
    requires node { node < length (nodes_of (script_of shared.old.code)) }
    requires callable { is_callable (shape_at (script_of shared.old.code) node).form ≡ true }
    requires part { 0 < arity (shape_at (script_of shared.old.code) node) }
    requires values { All (ValueBelow (length shared.old.heap.cells)) values }
    requires count { length values ≡ length (parameters_of (shape_at (script_of shared.old.code) node).form) }
    ensures { (r : ℕ) → 1 < r → ComesTo node r (λ sh a. body_of_values a sh node env values) (standing shared.old state.old) result (standing shared.new state.new) }
{
    let alloc = shared.alloc();
    let first = shared.heap.len();
    new_variables(shared, values.as_slice())?;
    let bound = bind_parameters(alloc, shared.code.kind(node), first, env.clone()?)?;
    let frame = Frame {
        kind: FrameKind::CallBody,
        node,
        left: 0,
        env,
        values: Values::new(alloc),
    };
    under(state, shared, frame, Entry::First, 0, bound)
}

/// One call more is open in this thread. `Err` is the limit, which is met at 1,024.
pub(crate) fn open_call(state: &mut ThreadState) -> Result<(), LimitKind>
    ensures { (u : Common) → MatchResult result (λ _. Passed call_limit opened (standing u state.old) (standing u state.new)) (λ limit. Met call_limit limit (standing u state.old) (standing u state.new)) }
{
    if state.calls >= MAX_CALLS {
        return Err(LimitKind::CallDepth);
    }
    state.calls += 1;
    Ok(())
}

/// The body has ended: without `return` it gives the value of its last statement.
pub(crate) fn after_body(state: &mut ThreadState, ending: Ending) -> Move
    requires { is_block_ending ending ≡ true }
    ensures { (u : Common) (k r : ℕ) → 0 < r → Comes k r (λ sh a. after_call ending) (standing u state.old) result (standing u state.new) }
{
    state.calls = state.calls.saturating_sub(1);
    Move::Ends(plain(ending))
}

/// What a body gives that has ended so: null by a `break` or a `continue` outside of a loop, with which no script is read.
fn plain(ending: Ending) -> Ending
    requires { is_block_ending ending ≡ true }
    ensures { result ≡ plain ending }
{
    match ending {
        Ending::Normal(value) | Ending::Returned(value) => Ending::Normal(value),
        Ending::Thrown(cell) => Ending::Thrown(cell),
        Ending::Broke | Ending::Continued => Ending::Normal(Value::Null),
        Ending::Declared(_) | Ending::Answered(_) => unreachable!(),
    }
}
