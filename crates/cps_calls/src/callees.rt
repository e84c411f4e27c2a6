//! What a name that is called means.

ghost use Rattle.std.specs.Prelude.{◌≡◌, ◌<◌, IfOk, IfSome, length, slice_get};
ghost use Rattle.std.specs.List.{AllByRecursion as AllAre};
ghost use Rattle.model_values.specs.Fitting.{HasVariable};
ghost use Rattle.model_run.specs.Fitting.{NamesRise};
ghost use Rattle.model_run.specs.Callables.{function_named};
ghost use Rattle.model_run.specs.Calls.{binding_closure, meant_function};
ghost use Rattle.cps_frames.specs.Standing.{world_of};
ghost use Rattle.cps_frames.specs.declared.thread.ThreadState.{ThreadState as Thread};
ghost use Rattle.cps_calls.specs.Meanings.{meant_of};

use crate::closures::closure_of;
use crate::step_names::step_named;
use cps_frames::Shared;
use cps_variables::{look_binding, variable};
use model_run::{Callee, Step};
use model_text::Text;
use model_values::Env;
use std::alloc::AllocError;

/// What a name that is called means, where no variable of this name is declared.
#[derive(Drop)]
pub(crate) enum Meant {
    /// A function, or the closure that a binding variable holds.
    Body(Callee),
    Begins(Step),
    Nothing,
}

/// What a name that is called means, where no variable of this name is declared: a function; a binding variable that holds a
/// closure; a step.
pub(crate) fn meaning(shared: &Shared, name: &Text) -> Result<Meant, AllocError>
    requires bound { AllAre (λ b. HasVariable (slice_get shared.now.heap.cells b.cell)) shared.now.binding.items }
    requires rising { NamesRise shared.now.binding.items }
    ensures { (t : Thread) → IfOk result (λ meant. meant_of meant ≡ meant_function name.now (world_of shared.now t) (function_named name.now (world_of shared.now t))) }
{
    if let Some(callee) = function_named(shared, name) {
        return Ok(Meant::Body(callee));
    }
    if let Some(callee) = binding_closure(shared, name.as_slice())? {
        return Ok(Meant::Body(callee));
    }
    match step_named(name.as_slice()) {
        Some(step) => Ok(Meant::Begins(step)),
        None => Ok(Meant::Nothing),
    }
}

/// The closure that the binding variable of this name holds, and `None` exactly where there is none.
fn binding_closure(shared: &Shared, name: &[u8]) -> Result<Option<Callee>, AllocError>
    requires bound { AllAre (λ b. HasVariable (slice_get shared.now.heap.cells b.cell)) shared.now.binding.items }
    requires rising { NamesRise shared.now.binding.items }
    ensures { (t : Thread) → IfOk result (λ callee. callee ≡ binding_closure name.now (world_of shared.now t)) }
{
    match look_binding(name, shared.binding.as_slice()) {
        Some(cell) => closure_of(shared, &variable(&shared.heap, cell)),
        None => Ok(None),
    }
}

/// The function of this name, and `None` exactly where there is none.
fn function_named(shared: &Shared, name: &Text) -> Option<Callee>
    ensures { (t : Thread) → result ≡ function_named name.now (world_of shared.now t) }
{
    let node = shared.code.function(name)?;
    let env = Env::new(shared.alloc());
    Some(Callee { node, env })
}
