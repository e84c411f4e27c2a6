//! The bodies of steps: the closures that they call, and the frames inside which these run.

ghost use Rattle.std.specs.Prelude.{◌≡◌, ◌<◌, ◌+◌, ◌^◌, Some, length, IfOk};
ghost use Rattle.model_values.specs.Fitting.{HasClosure, IsIn};
ghost use Rattle.model_run.specs.Around.{position, value_at, whole};
ghost use Rattle.model_run.specs.Callables.{closure_of};
ghost use Rattle.model_run.specs.State.{World, put_cells};
ghost use Rattle.model_run.specs.Steps.{starts};
ghost use Rattle.cps_frames.specs.Standing.{standing, world_of};
ghost use Rattle.step_library.specs.Numbers.{Countable, IsNatural};

use cell_heap::Heap;
use cps_frames::{Shared, ThreadState};
use model_run::Callee;
use model_values::{Cell, Value, Values};
use std::alloc::AllocError;

/// The closure that a value is. `AllocError` where the memory was refused.
pub(crate) fn callee_of(heap: &Heap, value: &Value) -> Result<Callee, AllocError>
    requires { IsIn HasClosure heap.now.cells value.now }
    ensures { (w : World) → IfOk result (λ callee. closure_of (put_cells heap.now.cells w) value.now ≡ Some callee) }
{
    let Value::Cell(id) = value else {
        unreachable!()
    };
    match heap.get(*id) {
        Cell::Closure { node, env } => Ok(Callee {
            node: *node,
            env: env.clone()?,
        }),
        _ => unreachable!(),
    }
}

/// A number as a frame keeps it.
pub(crate) fn whole(number: u32) -> Value
    requires { number < 2 ^ 31 }
    ensures { result ≡ whole number }
{
    Value::Int(number as i32)
}

/// The number that a frame keeps at a place.
pub(crate) fn number_at(values: &Values, at: usize) -> u32
    requires within { at < length values.now }
    requires natural { IsNatural (value_at at values.now) }
    ensures number { result ≡ position (value_at at values.now) }
    ensures small { result < 2 ^ 31 }
{
    natural(&value_at(values, at))
}

/// A whole number from 0 on.
fn natural(value: &Value) -> u32
    requires { IsNatural value.now }
    ensures number { result ≡ position value.now }
    ensures small { result < 2 ^ 31 }
{
    match value {
        Value::Int(number) => *number as u32,
        _ => unreachable!(),
    }
}

/// The number of the next flow node.
pub(crate) fn next_node(shared: &Shared) -> u32
    requires { length shared.now.graph + 2 < 2 ^ 31 }
    ensures { result ≡ length shared.now.graph + 2 }
{
    shared.graph.nodes().len() as u32 + 2
}

/// The numbers of the first nodes of a block, which is the thread's last node, and of its body, which is the next one.
pub(crate) fn starts(state: &ThreadState, shared: &Shared) -> Result<Values, AllocError>
    requires { Countable (standing shared.now state.now) }
    ensures { IfOk result (λ values. values ≡ starts (world_of shared.now state.now)) }
{
    let mut values = Values::new(shared.alloc());
    values.push(whole(state.head))?;
    values.push(whole(next_node(shared)))?;
    Ok(values)
}

/// A value that a frame keeps.
pub(crate) fn value_at(values: &Values, at: usize) -> Value
    requires { at < length values.now }
    ensures { result ≡ value_at at values.now }
{
    values.as_slice()[at]
}
