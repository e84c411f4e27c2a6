//! The steps that log a line or throw.

ghost use Rattle.std.specs.Prelude.{◌++◌, ℕ, ◌<◌, codes};
ghost use Rattle.model_run.specs.Around.{ended};
ghost use Rattle.model_run.specs.FlowNodes.{atom, logging};
ghost use Rattle.model_run.specs.State.{changed};
ghost use Rattle.model_run.specs.Steps.{throwing, worsened};
ghost use Rattle.model_run.specs.declared.result.BuildResult.TheVariants.{Unstable};
ghost use Rattle.model_values.specs.declared.throwable.Class.TheVariants.{Abort};
ghost use Rattle.model_values.specs.declared.value.Value.TheVariants.{Null};
ghost use Rattle.cps_frames.specs.Moves.{ComesTo};
ghost use Rattle.cps_frames.specs.Standing.{standing};

use crate::lines::{joined, last_line, throwing, worsen};
use cps_frames::{Halt, Move, Shared, ThreadState, note_atom, say};
use model_run::{BuildResult, Ending};
use model_text::Text;
use model_values::{Class, Value};

/// `echo`: a flow node and a line.
pub(crate) fn echo(
    state: &mut ThreadState,
    shared: &mut Shared,
    message: &[u8],
) -> Result<Move, Halt>
    ensures { (k r : ℕ) → 0 < r → ComesTo k r (λ sh a. atom (codes "echo") (logging message.now (ended Null))) (standing shared.old state.old) result (standing shared.new state.new) }
{
    note_atom(state, shared, b"echo")?;
    last_line(shared, message)
}

/// `error`: a flow node, and an abort is thrown.
pub(crate) fn error(
    state: &mut ThreadState,
    shared: &mut Shared,
    message: Text,
) -> Result<Move, Halt>
    ensures { (k r : ℕ) → 0 < r → ComesTo k r (λ sh a. atom (codes "error") (throwing Abort message)) (standing shared.old state.old) result (standing shared.new state.new) }
{
    note_atom(state, shared, b"error")?;
    throwing(shared, Class::Abort, message)
}

/// `unstable`: a flow node and a line, and the result is at least UNSTABLE.
pub(crate) fn make_unstable(
    state: &mut ThreadState,
    shared: &mut Shared,
    message: &[u8],
) -> Result<Move, Halt>
    ensures { (k r : ℕ) → 0 < r → ComesTo k r (λ sh a. atom (codes "unstable") (logging (codes "WARNING: " ++ message.now) (changed (worsened Unstable) (ended Null)))) (standing shared.old state.old) result (standing shared.new state.new) }
{
    note_atom(state, shared, b"unstable")?;
    let line = joined(shared.alloc(), "WARNING: ", message)?;
    say(shared, line.as_slice())?;
    worsen(shared, BuildResult::Unstable);
    Ok(Move::Ends(Ending::Normal(Value::Null)))
}
