//! `return` and `throw`.

ghost use Rattle.std.specs.Prelude.{◌≡◌, ◌<◌, ◌≤◌, ℕ};
ghost use Rattle.model_syntax.specs.declared.node.NodeForm.TheVariants as form;
ghost use Rattle.model_run.specs.Around.{arity};
ghost use Rattle.model_run.specs.Forms.{after};
ghost use Rattle.model_run.specs.Statements.{return_from};
ghost use Rattle.model_run.specs.declared.frame.FrameKind.TheVariants as kind;
ghost use Rattle.cps_code.specs.Script.{script_of};
ghost use Rattle.cps_frames.specs.Moves.{ComesTo};
ghost use Rattle.cps_frames.specs.Order.{rank};
ghost use Rattle.cps_frames.specs.Places.{MayGoOn};
ghost use Rattle.cps_frames.specs.Standing.{standing};
ghost use Rattle.cps_variables.specs.Nodes.{HasForm};

use cps_frames::{Halt, Move, Shared, ThreadState, inside, value_of};
use model_run::{Ending, Entry, Frame, FrameKind};
use model_values::{Env, Value};
use value_ops::throw_value;

/// `return`, with a value or without.
pub(crate) fn return_from(
    state: &mut ThreadState,
    shared: &Shared,
    node: u32,
    env: Env,
) -> Result<Move, Halt>
    requires { HasForm (script_of shared.now.code) node form.Return }
    ensures { (r : ℕ) → 1 < r → ComesTo node r (λ sh a. return_from a node (arity sh) env) (standing shared.now state.old) result (standing shared.now state.new) }
{
    if shared.code.parts(node) == 0 {
        return Ok(Move::Ends(Ending::Returned(Value::Null)));
    }
    inside(
        state,
        shared,
        FrameKind::ReturnValue,
        node,
        0,
        env,
        Entry::First,
        0,
    )
}

/// Behind the value of `return`.
pub(crate) fn after_return(
    state: &ThreadState,
    shared: &Shared,
    frame: Frame,
    ending: Ending,
) -> Result<Move, Halt>
    requires may { MayGoOn (standing shared.now state.now) frame ending }
    requires kind { frame.kind ≡ kind.ReturnValue }
    ensures { ComesTo frame.node (rank frame) (λ sh a. after frame sh a ending) (standing shared.now state.now) result (standing shared.now state.now) }
{
    let value = value_of(ending)?;
    Ok(Move::Ends(Ending::Returned(value)))
}

/// Behind the value of `throw`: a throwable itself is thrown, and of any other value that it is none.
pub(crate) fn after_throw(
    state: &ThreadState,
    shared: &mut Shared,
    frame: Frame,
    ending: Ending,
) -> Result<Move, Halt>
    requires may { MayGoOn (standing shared.old state.now) frame ending }
    requires kind { frame.kind ≡ kind.ThrowValue }
    ensures { ComesTo frame.node (rank frame) (λ sh a. after frame sh a ending) (standing shared.old state.now) result (standing shared.new state.now) }
{
    let value = value_of(ending)?;
    let Err(refusal) = throw_value(shared.alloc(), &mut shared.heap, &value) else {
        unreachable!()
    };
    Err(Halt::from(refusal))
}
