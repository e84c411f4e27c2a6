//! `try` and its catches.

ghost use Rattle.std.specs.Prelude.{◌≡◌, ◌<◌, ◌+◌, ◌*◌, ◌^◌, ℕ, IfOk, Some, slice_get};
ghost use Rattle.model_syntax.specs.declared.node.NodeForm.TheVariants as form;
ghost use Rattle.model_values.specs.Fitting.{HasThrowable};
ghost use Rattle.model_run.specs.Forms.{after};
ghost use Rattle.model_run.specs.Nesting.{shape_at};
ghost use Rattle.model_run.specs.State.{seeing};
ghost use Rattle.model_run.specs.Statements.{catch_among, catch_for, catches, catching};
ghost use Rattle.model_run.specs.Around.{cells};
ghost use Rattle.model_run.specs.declared.frame.FrameKind.TheVariants as kind;
ghost use Rattle.cps_code.specs.Script.{script_of};
ghost use Rattle.cps_frames.specs.Moves.{ComesTo};
ghost use Rattle.cps_frames.specs.Order.{rank};
ghost use Rattle.cps_frames.specs.Places.{MayGoOn};
ghost use Rattle.cps_frames.specs.Standing.{standing};
ghost use Rattle.cps_variables.specs.Nodes.{HasForm};
ghost use Rattle.cps_statements.specs.Catches.{class_in};

use crate::finals::after_catch;
use cell_heap::Heap;
use cps_code::Code;
use cps_frames::{Halt, Move, Shared, ThreadState, thrown_of, under};
use cps_variables::{new_variable, part_form};
use model_run::{Ending, Entry, Frame, FrameKind};
use model_syntax::{Caught, NodeForm};
use model_text::Text;
use model_values::{Binding, Cell, Class, Env, Value, Values};
use std::alloc::AllocError;

/// The class of the throwable in this cell.
fn class_of(heap: &Heap, cell: u32) -> Class
    requires { HasThrowable (slice_get heap.now.cells cell) }
    ensures { class_in (slice_get heap.now.cells cell) ≡ Some result }
{
    match heap.get(cell) {
        Cell::Thrown { class, .. } => *class,
        _ => unreachable!(),
    }
}

/// Whether a catch takes throwables of a class.
pub(crate) fn catches(caught: Caught, class: Class) -> bool
    ensures { result ≡ catches caught class }
{
    match caught {
        Caught::Throwables => true,
        Caught::Exceptions => class.is_exception(),
    }
}

/// The first catch of a `try` that takes throwables of a class: which part it is, and the name of its variable. `AllocError`
/// where the memory was refused.
fn catch_among(code: &Code, node: u32, class: Class) -> Result<Option<(u32, Text)>, AllocError>
    requires { HasForm (script_of code.now) node form.Try }
    ensures { IfOk result (λ found. found ≡ catch_among class 0 (shape_at (script_of code.now) node).parts) }
{
    for at in 0..code.parts(node) {
        if let NodeForm::Catch(caught, name) = part_form(code, node, at) {
            if catches(*caught, class) {
                return Ok(Some((at, name.clone()?)));
            }
        }
    }
    Ok(None)
}

/// Behind a throw in the block of a `try`: the catch that takes it, with a new variable for it, else `finally`.
fn catching(
    state: &mut ThreadState,
    shared: &mut Shared,
    node: u32,
    env: Env,
    cell: u32,
) -> Result<Move, Halt>
    requires form { HasForm (script_of shared.old.code) node form.Try }
    requires thrown { HasThrowable (slice_get shared.old.heap.cells cell) }
    ensures { (r : ℕ) → 2 * 2 ^ 34 < r → ComesTo node r (λ sh a. seeing (λ w. catching a node sh env cell (catch_for sh (slice_get (cells w) cell)))) (standing shared.old state.old) result (standing shared.new state.new) }
{
    let class = class_of(&shared.heap, cell);
    match catch_among(&shared.code, node, class)? {
        None => after_catch(state, shared, node, env, Ending::Thrown(cell)),
        Some((at, name)) => {
            let alloc = shared.alloc();
            let variable = new_variable(shared, Value::Cell(cell))?;
            let inner = env.clone()?.with(Binding {
                name,
                cell: variable,
            })?;
            let frame = Frame {
                kind: FrameKind::TryCatch,
                node,
                left: shared.code.parts(node) - 1 - at,
                env,
                values: Values::new(alloc),
            };
            under(state, shared, frame, Entry::Inside(0), at, inner)
        }
    }
}

/// Behind the block of a `try`.
pub(crate) fn after_try(
    state: &mut ThreadState,
    shared: &mut Shared,
    frame: Frame,
    ending: Ending,
) -> Result<Move, Halt>
    requires may { MayGoOn (standing shared.old state.old) frame ending }
    requires kind { frame.kind ≡ kind.TryBlock }
    ensures { ComesTo frame.node (rank frame) (λ sh a. after frame sh a ending) (standing shared.old state.old) result (standing shared.new state.new) }
{
    match thrown_of(ending) {
        Ok(cell) => catching(state, shared, frame.node, frame.env, cell),
        Err(ending) => after_catch(state, shared, frame.node, frame.env, ending),
    }
}
