//! Expressions without parts.

ghost use Rattle.std.specs.Prelude.{◌≡◌, ◌<◌, ◌^◌, ◌∷◌, [], ℕ, All, length, true};
ghost use Rattle.cell_heap.specs.Follows.{Follows};
ghost use Rattle.model_values.specs.Cells.{new_cell, new_text};
ghost use Rattle.model_values.specs.Limits.{product_limits};
ghost use Rattle.model_values.specs.declared.cell.Cell.TheVariants.{Closure as ClosureCell};
ghost use Rattle.model_run.specs.Forms.{start};
ghost use Rattle.model_run.specs.State.{operating, tick as counting};
ghost use Rattle.model_run.specs.Around.{cells, ended, limits};
ghost use Rattle.model_run.specs.Nesting.{shape_at};
ghost use Rattle.model_run.specs.Terms.{nodes_of};
ghost use Rattle.cps_code.specs.Script.{script_of};
ghost use Rattle.value_view.specs.Answers.{Answers};
ghost use Rattle.cps_frames.specs.Moves.{ComesTo};
ghost use Rattle.cps_frames.specs.Standing.{standing};
ghost use Rattle.cps_values.specs.Forms.{is_variable};
ghost use Rattle.cps_variables.specs.Sight.{Sees};

use cell_heap::Heap;
use cps_frames::{Halt, Move, Shared, ThreadState, tick};
use cps_variables::read_name;
use model_run::Ending;
use model_syntax::NodeForm;
use model_text::Text;
use model_values::{Cell, Env, Value};
use value_ops::{Effect, perform};
use value_view::OpRefusal;

/// A text, which is a new one each time.
pub fn literal(state: &ThreadState, shared: &mut Shared, text: Text) -> Result<Move, Halt>
    ensures { (k r : ℕ) → 0 < r → ComesTo k r (λ sh a. counting (operating (λ w. new_text (limits w) (cells w) text) ended)) (standing shared.old state.now) result (standing shared.new state.now) }
{
    tick(shared)?;
    let text = perform(&mut shared.heap, Effect::NewText(text))?;
    Ok(Move::Ends(Ending::Normal(text)))
}

/// A closure, which sees the variables of its place.
pub fn closure(state: &ThreadState, shared: &mut Shared, node: u32, env: Env) -> Result<Move, Halt>
    requires { All (λ b. b.cell < length shared.old.heap.cells) env }
    ensures { (k r : ℕ) → 0 < r → ComesTo k r (λ sh a. counting (operating (λ w. new_cell (limits w) (cells w) (ClosureCell node env)) ended)) (standing shared.old state.now) result (standing shared.new state.now) }
{
    tick(shared)?;
    let closure = new_closure(&mut shared.heap, node, env)?;
    Ok(Move::Ends(Ending::Normal(closure)))
}

/// The cell of a new closure.
fn new_closure(heap: &mut Heap, node: u32, env: Env) -> Result<Value, OpRefusal>
    requires { All (λ b. b.cell < length heap.old.cells) env }
    ensures answer { Answers (new_cell product_limits heap.old.cells (ClosureCell node env)) heap.old heap.new result }
    ensures follows { Follows heap.old heap.new }
{
    Ok(Value::Cell(heap.new_cell(Cell::Closure { node, env })?))
}

/// The value of a name.
pub fn variable(
    state: &ThreadState,
    shared: &mut Shared,
    node: u32,
    env: &Env,
) -> Result<Move, Halt>
    requires node { node < length (nodes_of (script_of shared.old.code)) }
    requires form { is_variable (shape_at (script_of shared.old.code) node).form ≡ true }
    requires sees { Sees shared.old.heap.cells shared.old.binding.items env.now }
    ensures { (r : ℕ) → 0 < r → ComesTo node r (λ sh a. start a node sh env.now sh.form) (standing shared.old state.now) result (standing shared.new state.now) }
{
    tick(shared)?;
    let alloc = shared.alloc();
    let NodeForm::Variable(name) = shared.code.kind(node) else {
        unreachable!()
    };
    let binding = shared.binding.as_slice();
    let value = read_name(alloc, &mut shared.heap, binding, name.as_slice(), env)?;
    Ok(Move::Ends(Ending::Normal(value)))
}
