//! How a step begins.

ghost use Rattle.std.specs.Prelude.{◌^◌};
ghost use Rattle.model_run.specs.Steps.{begin_step};
ghost use Rattle.cps_frames.specs.Moves.{ComesTo};
ghost use Rattle.cps_frames.specs.Standing.{standing};
ghost use Rattle.step_arguments.specs.Binding.{IsUsable};
ghost use Rattle.step_library.specs.Beginning.{MayBegin, MayTake, bound_says};

use crate::atoms::{echo, error, make_unstable};
use crate::blocks::stage;
use crate::catch_error::catch_error;
use crate::input::input;
use crate::lines::{last_line, throwing};
use crate::nodes::node_step;
use crate::parallel::parallel;
use crate::retry::retry;
use crate::settings::{dir, with_env};
use crate::shell::sh;
use cps_frames::{Halt, Move, Shared, ThreadState};
use model_run::Step;
use model_values::{Class, Env, Values};
use step_arguments::{BindRefusal, Bound, bind};

/// A step begins, with arguments that were evaluated. A fault of the call throws.
///
/// # Errors
///
/// As every function of the machine: `Halt::Limit` where the build meets a limit, which ends it, and `Halt::Memory` where
/// the memory was refused.
pub fn begin(
    state: &mut ThreadState,
    shared: &mut Shared,
    node: u32,
    env: Env,
    step: Step,
    arguments: Values,
) -> Result<Move, Halt>
    requires may { MayBegin (standing shared.old state.old) arguments }
    ensures { ComesTo node (2 ^ 66) (λ sh a. begin_step a node env step arguments) (standing shared.old state.old) result (standing shared.new state.new) }
{
    match bind(shared.alloc(), &shared.heap, step, arguments.as_slice()) {
        Ok(bound) => begin_bound(state, shared, node, env, bound),
        Err(BindRefusal::Fault(message)) => throwing(shared, Class::IllegalArgument, message),
        Err(BindRefusal::Limit(limit)) => Ok(Move::Hits(limit)),
        Err(BindRefusal::Memory) => Err(Halt::Memory),
    }
}

/// A step begins, with its arguments as it uses them.
fn begin_bound(
    state: &mut ThreadState,
    shared: &mut Shared,
    node: u32,
    env: Env,
    bound: Bound,
) -> Result<Move, Halt>
    requires may { MayTake (standing shared.old state.old) }
    requires usable { IsUsable shared.old.heap.cells bound }
    ensures { ComesTo node (2 ^ 66) (λ sh a. bound_says a node env bound) (standing shared.old state.old) result (standing shared.new state.new) }
{
    match bound {
        Bound::Println { value } => last_line(shared, value.as_slice()),
        Bound::Echo { message } => echo(state, shared, message.as_slice()),
        Bound::Error { message } => error(state, shared, message),
        Bound::MakeUnstable { message } => make_unstable(state, shared, message.as_slice()),
        Bound::Stage { name, body } => stage(state, shared, node, env, name.as_slice(), &body),
        Bound::CatchError {
            message,
            result,
            body,
        } => catch_error(state, shared, node, env, message, result, &body),
        Bound::Retry { more, body } => retry(state, shared, node, env, more, &body),
        Bound::Node { label, body } => node_step(state, shared, node, env, label, &body),
        Bound::Dir { path, body } => dir(state, shared, node, env, path, &body),
        Bound::WithEnv { overrides, body } => with_env(state, shared, node, env, overrides, &body),
        Bound::Sh {
            script,
            status,
            keep_out,
        } => sh(state, shared, node, env, script, status, keep_out),
        Bound::Input { message, ok, id } => {
            input(state, shared, node, env, message.as_slice(), ok, id)
        }
        Bound::Parallel { branches } => parallel(state, shared, node, env, &branches),
    }
}
