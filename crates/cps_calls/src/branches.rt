//! The closures of the branches of `parallel`.

ghost use Rattle.std.specs.Prelude.{◌≡◌, ◌∷◌, ◌<◌, ◌^◌, [], ℕ, All, codes, length, true};
ghost use Rattle.cell_heap.specs.Soundness.{ValueBelow};
ghost use Rattle.model_values.specs.Kinds.{closure};
ghost use Rattle.model_values.specs.Throws.{no_method};
ghost use Rattle.cps_code.specs.Script.{script_of};
ghost use Rattle.model_run.specs.Around.{arity, cells, ended, frame, limits, under, whole};
ghost use Rattle.model_run.specs.Callables.{after_call, parameters_of};
ghost use Rattle.model_run.specs.FrameTable.{is_callable};
ghost use Rattle.model_run.specs.Forms.{enter};
ghost use Rattle.model_run.specs.Nesting.{shape_at};
ghost use Rattle.model_run.specs.State.{operating, through};
ghost use Rattle.model_run.specs.Steps.{after_branch};
ghost use Rattle.model_run.specs.Fitting.{IsFlowNode};
ghost use Rattle.model_run.specs.Terms.{nodes_of};
ghost use Rattle.model_run.specs.declared.ending.Entry.TheVariants.{Branched, First};
ghost use Rattle.model_run.specs.declared.frame.Frame.{Frame as OneFrame};
ghost use Rattle.model_run.specs.declared.frame.FrameKind.TheVariants as kind;
ghost use Rattle.cps_frames.specs.Moves.{ComesTo};
ghost use Rattle.cps_frames.specs.Places.{MayEnter};
ghost use Rattle.cps_frames.specs.Standing.{standing};
ghost use Rattle.cps_calls.specs.Calls.{body_of_values};

use crate::bodies::{open_call, throw_unfit};
use crate::parameters::{arguments_for, bind_parameters};
use crate::variables::new_variables;
use cps_frames::{Halt, Move, Shared, ThreadState};
use model_run::{Ending, Entry, Frame, FrameKind};
use model_values::{Env, Values};
use step_library::{branch_frame, end_branch};
use value_view::OpRefusal;

/// The closure of a branch, without arguments, inside the frame of the branch, which began at the flow node `start`. A closure with
/// more than one parameter throws inside the branch, and so ends it.
///
/// `Halt::Limit` where 1,024 calls are open in the thread, where the new variables pass a limit of the heap, and where the end of a
/// branch that throws meets one; `Halt::Memory` where the memory was refused.
pub fn branched(
    state: &mut ThreadState,
    shared: &mut Shared,
    node: u32,
    env: Env,
    start: u32,
) -> Result<Move, Halt>
    requires may { MayEnter (standing shared.old state.old) (Branched start) node env }
    ensures { ComesTo node (2 ^ 66) (λ sh a. enter (Branched start) a node sh env) (standing shared.old state.old) result (standing shared.new state.new) }
{
    let arguments = Values::new(shared.alloc());
    match arguments_for(shared.code.kind(node), arguments)? {
        None => refuse_branch(state, shared, start),
        Some(values) => {
            open_call(state)?;
            run_branch(state, shared, node, env, start, values)
        }
    }
}

/// The end of a branch whose closure has more than one parameter: it throws.
fn refuse_branch(state: &mut ThreadState, shared: &mut Shared, start: u32) -> Result<Move, Halt>
    requires { IsFlowNode shared.old.graph start }
    ensures { (k r : ℕ) (f : OneFrame) → 0 < r → ComesTo k r (λ sh a s. through f (after_branch start) (operating (λ w. no_method (limits w) (cells w) (closure 0) (codes "call")) ended s)) (standing shared.old state.old) result (standing shared.new state.new) }
{
    match throw_unfit(shared) {
        OpRefusal::Thrown(cell) => end_branch(state, shared, start, Ending::Thrown(cell)),
        OpRefusal::Limit(limit) => Ok(Move::Hits(limit)),
        OpRefusal::Memory => Err(Halt::Memory),
    }
}

/// The body of the closure of a branch, with a new variable for each parameter.
fn run_branch(
    state: &mut ThreadState,
    shared: &mut Shared,
    node: u32,
    env: Env,
    start: u32,
    values: Values,
) -> Result<Move, Halt>
    requires node { node < length (nodes_of (script_of shared.old.code)) }
    requires callable { is_callable (shape_at (script_of shared.old.code) node).form ≡ true }
    requires part { 0 < arity (shape_at (script_of shared.old.code) node) }
    requires values { All (ValueBelow (length shared.old.heap.cells)) values }
    requires count { length values ≡ length (parameters_of (shape_at (script_of shared.old.code) node).form) }
    requires start { start < 2 ^ 31 }
    ensures { (r : ℕ) → 2 < r → ComesTo node r (λ sh a s. through (frame kind.BranchBody node 0 env (whole start ∷ [])) (after_branch start) (body_of_values a sh node env values s)) (standing shared.old state.old) result (standing shared.new state.new) }
{
    let alloc = shared.alloc();
    let first = shared.heap.len();
    new_variables(shared, values.as_slice())?;
    let bound = bind_parameters(alloc, shared.code.kind(node), first, env.clone()?)?;
    inside_branch(state, shared, node, env, start, bound)
}

/// The body of the closure of a branch, whose parameters are bound.
fn inside_branch(
    state: &mut ThreadState,
    shared: &Shared,
    node: u32,
    env: Env,
    start: u32,
    bound: Env,
) -> Result<Move, Halt>
    requires node { node < length (nodes_of (script_of shared.now.code)) }
    requires part { 0 < arity (shape_at (script_of shared.now.code) node) }
    requires start { start < 2 ^ 31 }
    ensures { (r : ℕ) → 2 < r → ComesTo node r (λ sh a s. through (frame kind.BranchBody node 0 env (whole start ∷ [])) (after_branch start) (under a (frame kind.CallBody node 0 env []) after_call First 0 bound s)) (standing shared.now state.old) result (standing shared.now state.new) }
{
    let alloc = shared.alloc();
    match shared.code.part(node, 0) {
        None => unreachable!(),
        Some(body) => {
            let branch = branch_frame(alloc, node, env.clone()?, start)?;
            let call = Frame {
                kind: FrameKind::CallBody,
                node,
                left: 0,
                env,
                values: Values::new(alloc),
            };
            state.push(branch)?;
            state.push(call)?;
            Ok(Move::Enter(Entry::First, body, bound))
        }
    }
}
