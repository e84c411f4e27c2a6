//! How a frame goes on by the ending inside it.

ghost use Rattle.std.specs.Prelude.{◌≡◌, IfOk, false, true};
ghost use Rattle.cps_frames.specs.Ways.{is_answer, is_block_ending, statement_of, thrown_of, turn_of, value_of};

use model_run::Ending;
use model_values::{Env, Value};
use std::alloc::AllocError;

/// A value, behind what ends as a block may. `Err` is any other such ending, which is passed on.
pub fn value_of(ending: Ending) -> Result<Value, Ending>
    requires { is_block_ending ending ≡ true }
    ensures { result ≡ value_of ending }
{
    match ending {
        Ending::Normal(value) => Ok(value),
        Ending::Declared(_) | Ending::Answered(_) => unreachable!(),
        other => Err(other),
    }
}

/// The cell of what was thrown, behind what ends as a block may. `Err` is any other such ending.
pub fn thrown_of(ending: Ending) -> Result<u32, Ending>
    requires { is_block_ending ending ≡ true }
    ensures { result ≡ thrown_of ending }
{
    match ending {
        Ending::Thrown(cell) => Ok(cell),
        Ending::Declared(_) | Ending::Answered(_) => unreachable!(),
        other => Err(other),
    }
}

/// A turn of a loop has ended, as a block may, and the loop goes on. `Err` is how the loop ends: with null behind
/// `break`.
pub fn turn_of(ending: Ending) -> Result<(), Ending>
    requires { is_block_ending ending ≡ true }
    ensures { result ≡ turn_of ending }
{
    match ending {
        Ending::Normal(_) | Ending::Continued => Ok(()),
        Ending::Broke => Err(Ending::Normal(Value::Null)),
        Ending::Declared(_) | Ending::Answered(_) => unreachable!(),
        other => Err(other),
    }
}

/// The value of a statement, which has ended with no answer of a wait, and the variables that are seen behind it: a
/// declaration is one more. `Err` within is how the row of statements ends. `AllocError` where the memory was refused.
pub fn statement_of(env: Env, ending: Ending) -> Result<Result<(Value, Env), Ending>, AllocError>
    requires { is_answer ending ≡ false }
    ensures { IfOk result (λ way. way ≡ statement_of env ending) }
{
    match ending {
        Ending::Normal(value) => Ok(Ok((value, env))),
        Ending::Declared(binding) => Ok(Ok((Value::Null, env.with(binding)?))),
        Ending::Answered(_) => unreachable!(),
        other => Ok(Err(other)),
    }
}
