//! The closure that a value is.

ghost use Rattle.std.specs.Prelude.{◌≡◌, IfOk, length};
ghost use Rattle.cell_heap.specs.Soundness.{ValueBelow};
ghost use Rattle.model_run.specs.Callables.{closure_of};
ghost use Rattle.cps_frames.specs.Standing.{world_of};
ghost use Rattle.cps_frames.specs.declared.thread.ThreadState.{ThreadState as Thread};

use cps_frames::Shared;
use model_run::Callee;
use model_values::{Cell, Value};
use std::alloc::AllocError;

/// The closure that a value is, and `None` exactly where it is none. The copy of its variables takes no memory: `AllocError`
/// only where 2^63 copies of them stand already.
pub(crate) fn closure_of(shared: &Shared, value: &Value) -> Result<Option<Callee>, AllocError>
    requires { ValueBelow (length shared.now.heap.cells) value.now }
    ensures { (t : Thread) → IfOk result (λ callee. callee ≡ closure_of (world_of shared.now t) value.now) }
{
    let Value::Cell(cell) = value else {
        return Ok(None);
    };
    match shared.heap.get(*cell) {
        Cell::Closure { node, env } => Ok(Some(Callee {
            node: *node,
            env: env.clone()?,
        })),
        _ => Ok(None),
    }
}
