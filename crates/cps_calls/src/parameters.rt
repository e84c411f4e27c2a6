//! The parameters of closures and functions, and what they hold.

ghost use Rattle.std.specs.Prelude.{◌≡◌, ◌+◌, ◌<◌, ◌≤◌, ◌^◌, ◌∷◌, [], length, true, IfOk};
ghost use Rattle.model_run.specs.Callables.{arguments_for, parameters_of};
ghost use Rattle.model_run.specs.FrameTable.{is_callable};
ghost use Rattle.model_run.specs.Names.{bind_all};

use model_syntax::NodeForm;
use model_text::{Text, Texts};
use model_values::{Binding, Env, Value, Values};
use std::alloc::{AllocError, Global};

/// How many parameters the closure or function of this form has; a closure without heads has `it`.
pub(crate) fn parameter_count(form: &NodeForm) -> usize
    requires { is_callable form.now ≡ true }
    ensures { result ≡ length (parameters_of form.now) }
{
    match form {
        NodeForm::Closure(None) => 1,
        NodeForm::Closure(Some(names)) | NodeForm::Function(_, names) => names.len(),
        _ => unreachable!(),
    }
}

/// What the parameters hold: a single one is null where there is no argument. `None` exactly where there are not as many
/// arguments as parameters. `AllocError` where the memory was refused.
pub(crate) fn arguments_for(
    form: &NodeForm,
    arguments: Values,
) -> Result<Option<Values>, AllocError>
    requires { is_callable form.now ≡ true }
    ensures { IfOk result (λ held. held ≡ arguments_for (parameters_of form.now) arguments) }
{
    let mut arguments = arguments;
    let count = parameter_count(form);
    if count == 1 && arguments.is_empty() {
        arguments.push(Value::Null)?;
    }
    if count == arguments.len() {
        Ok(Some(arguments))
    } else {
        Ok(None)
    }
}

/// The variables that a body sees: its parameters, in cells from `first` on, the last of them innermost, and around them these.
/// `AllocError` where the memory was refused.
pub(crate) fn bind_parameters(
    alloc: Global,
    form: &NodeForm,
    first: u32,
    env: Env,
) -> Result<Env, AllocError>
    requires callable { is_callable form.now ≡ true }
    requires few { first + length (parameters_of form.now) ≤ 2 ^ 32 }
    ensures { IfOk result (λ bound. bound ≡ bind_all (parameters_of form.now) first env) }
{
    match form {
        NodeForm::Closure(None) => bind(env, Text::from_str(alloc, "it")?, first),
        NodeForm::Closure(Some(names)) | NodeForm::Function(_, names) => bind_all(
            names, first, env,
        ),
        _ => unreachable!(),
    }
}

/// These variables, and inside them one of each name, with cells in a row from `first` on.
fn bind_all(names: &Texts, first: u32, env: Env) -> Result<Env, AllocError>
    requires { first + length names.now ≤ 2 ^ 32 }
    ensures { IfOk result (λ bound. bound ≡ bind_all names.now first env) }
{
    let mut bound = env;
    for (at, name) in names.as_slice().iter().enumerate() {
        bound = bind(bound, name.clone()?, first + at as u32)?;
    }
    Ok(bound)
}

/// These variables, and inside them one more.
fn bind(env: Env, name: Text, cell: u32) -> Result<Env, AllocError>
    ensures { IfOk result (λ bound. bound ≡ bind_all (name ∷ []) cell env) }
{
    env.with(Binding { name, cell })
}
