//! The steps and the walks that a node calls.

ghost use Rattle.std.specs.Prelude.{◌≡◌, option_map};
ghost use Rattle.model_values.specs.MethodNames.{method_named};
ghost use Rattle.model_run.specs.Calls.{walk_method, walks};
ghost use Rattle.model_run.specs.FrameTable.{calls_step, is_call_method, same_step};
ghost use Rattle.model_run.specs.StepTable.{step_among, step_named};
ghost use Rattle.method_names.specs.Names.{seen};

use crate::counts::look;
use method_names::Method;
use model_run::Step;
use model_syntax::NodeForm;
use model_values::Env;

const STEPS: [Step; 13] = [
    Step::Println,
    Step::Echo,
    Step::Error,
    Step::MakeUnstable,
    Step::Stage,
    Step::CatchError,
    Step::Retry,
    Step::Node,
    Step::Dir,
    Step::WithEnv,
    Step::Sh,
    Step::Input,
    Step::Parallel,
];

/// The step of this name, and `None` exactly where there is none.
fn step_named(name: &[u8]) -> Option<Step>
    ensures { result ≡ step_named name.now }
{
    step_among(name, &STEPS)
}

/// The first of these steps that has this name.
fn step_among(name: &[u8], steps: &[Step]) -> Option<Step>
    ensures { result ≡ step_among name.now steps.now }
{
    for step in steps {
        if name == step.name().as_bytes() {
            return Some(*step);
        }
    }
    None
}

/// Whether these are the same step, of those that have frames.
fn same_step(step: Step, found: Option<Step>) -> bool
    ensures { result ≡ same_step step found }
{
    match step {
        Step::Stage => matches!(found, Some(Step::Stage)),
        Step::CatchError => matches!(found, Some(Step::CatchError)),
        Step::Retry => matches!(found, Some(Step::Retry)),
        Step::Node => matches!(found, Some(Step::Node)),
        Step::Dir => matches!(found, Some(Step::Dir)),
        Step::WithEnv => matches!(found, Some(Step::WithEnv)),
        Step::Sh => matches!(found, Some(Step::Sh)),
        Step::Input => matches!(found, Some(Step::Input)),
        Step::Parallel => matches!(found, Some(Step::Parallel)),
        Step::Println | Step::Echo | Step::Error | Step::MakeUnstable => false,
    }
}

/// Whether a node calls this step: no variable that is seen has its name.
pub(crate) fn calls_step(step: Step, form: &NodeForm, env: &Env) -> bool
    ensures { result ≡ calls_step step form.now env.now }
{
    match form {
        NodeForm::Call(name) => {
            same_step(step, step_named(name.as_slice())) && look(name.as_slice(), env).is_none()
        }
        _ => false,
    }
}

/// The method that a node calls; of a node that calls none, one that does not walk.
pub(crate) fn walk_method(form: &NodeForm) -> Method
    ensures { seen result ≡ walk_method form.now }
{
    match form {
        NodeForm::Method(_, name) => { Method::named(name.as_slice()).unwrap_or(Method::ToString) }
        _ => Method::ToString,
    }
}

/// Whether this is the name of the method `call`.
pub(crate) fn is_call_method(name: &[u8]) -> bool
    ensures { result ≡ is_call_method (method_named name.now) }
{
    is_call(Method::named(name))
}

fn is_call(method: Option<Method>) -> bool
    ensures { result ≡ is_call_method (option_map seen method) }
{
    matches!(method, Some(Method::Call))
}

/// Whether a method walks over a value with a closure.
pub(crate) fn walks(method: Method) -> bool
    ensures { result ≡ walks (seen method) }
{
    matches!(
        method,
        Method::Each
            | Method::Collect
            | Method::Find
            | Method::FindAll
            | Method::Any
            | Method::Every
            | Method::Times
    )
}
