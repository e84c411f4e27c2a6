//! Variables that are read, made, written and declared.

ghost use Rattle.std.specs.Prelude.{◌≡◌, ◌<◌, ℕ, slice_get};
ghost use Rattle.model_values.specs.Cells.{new_cell};
ghost use Rattle.model_values.specs.Fitting.{HasVariable, There};
ghost use Rattle.model_values.specs.declared.cell.Cell.TheVariants.{Variable};
ghost use Rattle.model_run.specs.Around.{cells, limits};
ghost use Rattle.model_run.specs.Fitting.{NamesRise};
ghost use Rattle.model_run.specs.State.{World};
ghost use Rattle.model_run.specs.Names.{content, declare, first_of, look, read_name};
ghost use Rattle.cps_frames.specs.Changes.{Done};
ghost use Rattle.cps_frames.specs.Moves.{ComesTo};
ghost use Rattle.cps_frames.specs.Standing.{standing};
ghost use Rattle.cps_frames.specs.declared.thread.ThreadState.{ThreadState as Thread};
ghost use Rattle.value_view.specs.Answers.{Answers, Leaves};
ghost use Rattle.cell_heap.specs.Follows.{Follows};
ghost use Rattle.cps_variables.specs.Sight.{Has, Sees, Written, cell_given};

use crate::names::{insert, look, look_binding};
use cell_heap::Heap;
use cps_frames::{Halt, Move, Shared};
use model_run::Ending;
use model_text::Text;
use model_values::{Binding, Cell, Env, Value};
use std::alloc::Global;
use value_ops::{perform, unknown_name};
use value_view::OpRefusal;

/// The value of the variable in this cell.
pub fn variable(heap: &Heap, cell: u32) -> Value
    requires { HasVariable (slice_get heap.now.cells cell) }
    ensures value { result ≡ content (slice_get heap.now.cells cell) }
    ensures there { There heap.now.cells result }
{
    match heap.get(cell) {
        Cell::Variable(value) => *value,
        _ => unreachable!(),
    }
}

/// The cell of what a name means: the nearest declared variable, else a binding variable. `None` exactly where there is
/// none.
fn meant(name: &[u8], env: &Env, binding: &[Binding]) -> Option<u32>
    requires { NamesRise binding.now }
    ensures { result ≡ first_of (look name.now env.now) (look name.now binding.now) }
{
    match look(name, env) {
        Some(cell) => Some(cell),
        None => look_binding(name, binding),
    }
}

/// The value of a name. `OpRefusal::Thrown` where no variable has it: a `MissingPropertyException`, which is new;
/// `OpRefusal::Limit` where that would pass a limit of the heap, and `OpRefusal::Memory` where the memory was refused.
pub fn read_name(
    alloc: Global,
    heap: &mut Heap,
    binding: &[Binding],
    name: &[u8],
    env: &Env,
) -> Result<Value, OpRefusal>
    requires { Sees heap.old.cells binding.now env.now }
    ensures answer { (w : World) → Has heap.old.cells binding.now w → Answers (read_name name.now env.now w) heap.old heap.new result }
    ensures leaves { Leaves heap.old heap.new result }
{
    match meant(name, env, binding) {
        Some(cell) => Ok(variable(heap, cell)),
        None => {
            let effect = unknown_name(alloc, name)?;
            let Err(refusal) = perform(heap, effect) else {
                unreachable!()
            };
            Err(refusal)
        }
    }
}

/// A new variable with this value. It is the number of its cell. `OpRefusal::Limit` where it would pass a limit of the heap, and
/// `OpRefusal::Memory` where the memory was refused.
pub fn new_variable(shared: &mut Shared, value: Value) -> Result<u32, OpRefusal>
    requires { There shared.old.heap.cells value }
    ensures done { (t : Thread) → Done (λ w. new_cell (limits w) (cells w) (Variable value)) (standing shared.old t) (cell_given result) (standing shared.new t) }
    ensures rest { shared.new ≡ record shared.old { heap = shared.new.heap } }
{
    Ok(shared.heap.new_cell(Cell::Variable(value))?)
}

/// A value is assigned to a name: where no variable of the name is declared, a binding variable is changed or made.
/// `OpRefusal::Limit` where a new one would pass a limit of the heap, and `OpRefusal::Memory` where the memory was refused. It throws
/// nothing.
pub fn write_name(
    heap: &mut Heap,
    binding: &mut Vec<Binding>,
    name: &[u8],
    env: &Env,
    value: Value,
) -> Result<(), OpRefusal>
    requires sees { Sees heap.old.cells binding.old.items env.now }
    requires value { There heap.old.cells value }
    ensures written { Written name.now env.now value heap.old.cells binding.old.items result heap.new.cells binding.new.items }
    ensures follows { Follows heap.old heap.new }
{
    match meant(name, env, binding.as_slice()) {
        Some(cell) => heap.set(cell, value),
        None => {
            let name = Text::from_slice(*binding.allocator(), name)?;
            let cell = heap.new_cell(Cell::Variable(value))?;
            insert(binding, name, cell)?;
        }
    }
    Ok(())
}

/// A variable of this name is declared with its first value, for the statements behind it. `Halt::Limit` where it would pass a
/// limit of the heap, and `Halt::Memory` where the memory was refused.
pub fn declare(shared: &mut Shared, name: Text, value: Value) -> Result<Move, Halt>
    requires { There shared.old.heap.cells value }
    ensures { (t : Thread) (k r : ℕ) → 0 < r → ComesTo k r (λ sh a. declare name value) (standing shared.old t) result (standing shared.new t) }
{
    let cell = new_variable(shared, value)?;
    Ok(Move::Ends(Ending::Declared(Binding { name, cell })))
}
