//! `f(..)`: calls of names.

ghost use Rattle.std.specs.Prelude.{◌≡◌, ◌<◌, ℕ, IfOk, is_some, length, slice_get, true};
ghost use Rattle.std.specs.List.{AllByRecursion as AllAre};
ghost use Rattle.model_values.specs.Fitting.{HasVariable, There};
ghost use Rattle.cps_code.specs.Script.{script_of};
ghost use Rattle.model_run.specs.Around.{ended};
ghost use Rattle.model_run.specs.Calls.{call_value, called_value};
ghost use Rattle.model_run.specs.FrameTable.{is_name_call};
ghost use Rattle.model_run.specs.Forms.{gathered};
ghost use Rattle.model_run.specs.Names.{look};
ghost use Rattle.model_run.specs.Nesting.{shape_at};
ghost use Rattle.model_run.specs.State.{operating};
ghost use Rattle.model_run.specs.Terms.{nodes_of};
ghost use Rattle.model_run.specs.declared.ending.Entry.TheVariants.{First};
ghost use Rattle.cps_frames.specs.Moves.{ComesTo};
ghost use Rattle.cps_frames.specs.Places.{MayEnter};
ghost use Rattle.cps_frames.specs.Standing.{standing, world_of};
ghost use Rattle.cps_frames.specs.declared.thread.ThreadState.{ThreadState as Thread};
ghost use Rattle.cps_calls.specs.Meanings.{name_at, unknown_at};

use crate::callees::{Meant, meaning};
use crate::effects::throw_with;
use crate::kept::split_first;
use crate::methods::call_method;
use cps_frames::{Halt, Move, Shared, ThreadState, tick};
use cps_variables::{look, variable};
use model_run::Entry;
use model_syntax::NodeForm;
use model_values::{Env, Values};
use std::alloc::AllocError;
use step_library::begin;
use value_ops::unknown_step;

/// What is kept before the arguments of a call of a name: the value of a declared variable of this name, which is read before them,
/// and nothing where none is declared. `AllocError` where the memory was refused.
pub fn called_value(shared: &Shared, name: &[u8], env: &Env) -> Result<Values, AllocError>
    requires { AllAre (λ b. HasVariable (slice_get shared.now.heap.cells b.cell)) env.now }
    ensures value { (t : Thread) → IfOk result (λ values. values ≡ called_value (world_of shared.now t) (look name.now env.now)) }
    ensures there { IfOk result (AllAre (There shared.now.heap.cells)) }
{
    let mut values = Values::new(shared.alloc());
    if let Some(cell) = look(name, env) {
        values.push(variable(&shared.heap, cell))?;
    }
    Ok(values)
}

/// `f(..)` behind its arguments, before which the value of a declared variable of this name is kept.
pub fn call_named(
    state: &mut ThreadState,
    shared: &mut Shared,
    node: u32,
    env: Env,
    values: Values,
) -> Result<Move, Halt>
    requires may { MayEnter (standing shared.old state.old) First node env }
    requires form { is_name_call (shape_at (script_of shared.old.code) node).form ≡ true }
    requires values { AllAre (There shared.old.heap.cells) values }
    requires called { is_some (look (name_at (shape_at (script_of shared.old.code) node).form) env) ≡ true → 0 < length values }
    ensures { (r : ℕ) → 0 < r → ComesTo node r (λ sh a. gathered a node env sh sh.form values) (standing shared.old state.old) result (standing shared.new state.new) }
{
    let NodeForm::Call(name) = shared.code.kind(node) else {
        unreachable!()
    };
    if look(name.as_slice(), &env).is_some() {
        return call_value(state, shared, node, env, values);
    }
    let meant = meaning(shared, name)?;
    tick(shared)?;
    match meant {
        Meant::Body(callee) => Ok(Move::Enter(Entry::Body(values), callee.node, callee.env)),
        Meant::Begins(step) => begin(state, shared, node, env, step, values),
        Meant::Nothing => refuse_name(shared, node),
    }
}

/// The throw of a call of a name that means nothing.
fn refuse_name(shared: &mut Shared, node: u32) -> Result<Move, Halt>
    requires node { node < length (nodes_of (script_of shared.old.code)) }
    requires form { is_name_call (shape_at (script_of shared.old.code) node).form ≡ true }
    ensures { (t : Thread) (k r : ℕ) → 0 < r → ComesTo k r (λ sh a. operating (unknown_at (shape_at (script_of shared.old.code) node).form) ended) (standing shared.old t) result (standing shared.new t) }
{
    let NodeForm::Call(name) = shared.code.kind(node) else {
        unreachable!()
    };
    let effect = unknown_step(shared.alloc(), name.as_slice())?;
    Err(Halt::from(throw_with(shared, effect)))
}

/// The value of a declared variable is called.
fn call_value(
    state: &mut ThreadState,
    shared: &mut Shared,
    node: u32,
    env: Env,
    values: Values,
) -> Result<Move, Halt>
    requires may { MayEnter (standing shared.old state.old) First node env }
    requires form { is_name_call (shape_at (script_of shared.old.code) node).form ≡ true }
    requires values { AllAre (There shared.old.heap.cells) values }
    requires called { 0 < length values }
    ensures { (r : ℕ) → 0 < r → ComesTo node r (λ sh a. call_value a node sh env values) (standing shared.old state.old) result (standing shared.new state.new) }
{
    let Some((on, arguments)) = split_first(values) else {
        unreachable!()
    };
    call_method(state, shared, node, env, on, arguments)
}
