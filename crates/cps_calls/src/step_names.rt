//! The steps by their names.

ghost use Rattle.std.specs.Prelude.{◌≡◌};
ghost use Rattle.model_run.specs.StepTable.{step_among, step_named};

use model_run::Step;

/// All steps.
const STEPS: [Step; 13] = [
    Step::Println,
    Step::Echo,
    Step::Error,
    Step::MakeUnstable,
    Step::Stage,
    Step::CatchError,
    Step::Retry,
    Step::Node,
    Step::Dir,
    Step::WithEnv,
    Step::Sh,
    Step::Input,
    Step::Parallel,
];

/// The step of this name, and `None` exactly where there is none.
pub(crate) fn step_named(name: &[u8]) -> Option<Step>
    ensures { result ≡ step_named name.now }
{
    step_among(name, &STEPS)
}

/// The first of these steps that has this name.
fn step_among(name: &[u8], steps: &[Step]) -> Option<Step>
    ensures { result ≡ step_among name.now steps.now }
{
    for step in steps {
        if name == step.name().as_bytes() {
            return Some(*step);
        }
    }
    None
}
