//! The lines of steps, and what they throw.

ghost use Rattle.std.specs.Prelude.{◌≡◌, ◌++◌, ℕ, ◌<◌, IfOk};
ghost use Rattle.model_run.specs.Around.{ended};
ghost use Rattle.model_run.specs.FlowNodes.{logging};
ghost use Rattle.model_run.specs.Steps.{logging_all, throwing, worsened};
ghost use Rattle.step_library.specs.Changing.{Changes};
ghost use Rattle.step_library.specs.Saying.{Logs};
ghost use Rattle.cps_frames.specs.Moves.{ComesTo};
ghost use Rattle.cps_frames.specs.Standing.{standing};
ghost use Rattle.cps_frames.specs.declared.thread.ThreadState.{ThreadState as Thread};
ghost use Rattle.model_values.specs.declared.value.Value.TheVariants.{Null};

use cps_frames::{Halt, Move, Shared, say};
use model_run::{BuildResult, Ending};
use model_text::Text;
use model_values::{Class, Value};
use std::alloc::{AllocError, Global};
use value_ops::{Effect, perform};

/// A line, behind which the step ends with null.
pub(crate) fn last_line(shared: &mut Shared, text: &[u8]) -> Result<Move, Halt>
    ensures { (t : Thread) (k r : ℕ) → 0 < r → ComesTo k r (λ sh a. logging text.now (ended Null)) (standing shared.old t) result (standing shared.new t) }
{
    say(shared, text)?;
    Ok(Move::Ends(Ending::Normal(Value::Null)))
}

/// A new throwable of this class is thrown.
pub(crate) fn throwing(shared: &mut Shared, class: Class, message: Text) -> Result<Move, Halt>
    ensures { (t : Thread) (k r : ℕ) → 0 < r → ComesTo k r (λ sh a. throwing class message) (standing shared.old t) result (standing shared.new t) }
{
    let Err(refusal) = perform(&mut shared.heap, Effect::Throw(class, message)) else {
        unreachable!()
    };
    Err(Halt::from(refusal))
}

/// The result only gets worse.
pub(crate) fn worsen(shared: &mut Shared, least: BuildResult)
    ensures { (t : Thread) → Changes (worsened least) (standing shared.old t) (standing shared.new t) }
{
    shared.result = shared.result.worse(least);
}

/// A text behind another.
pub(crate) fn joined(alloc: Global, front: &str, back: &[u8]) -> Result<Text, AllocError>
    ensures { IfOk result (λ text. text ≡ front.now ++ back.now) }
{
    let mut text = Text::from_str(alloc, front)?;
    text.append(back)?;
    Ok(text)
}

/// Lines, one behind the other. `Halt::Limit` where the log would have more than 16,777,216 bytes, and `Halt::Memory`
/// where the memory was refused.
pub(crate) fn say_all(shared: &mut Shared, lines: &[Text]) -> Result<(), Halt>
    ensures { (t : Thread) → Logs (logging_all lines.now) (standing shared.old t) result (standing shared.new t) }
{
    for line in lines {
        say(shared, line.as_slice())?;
    }
    Ok(())
}
