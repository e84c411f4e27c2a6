ghost use Rattle.std.specs.Prelude.{◌≡◌};
ghost use Rattle.model_run.specs.StepTable.{step_name};

/// The steps of a Pipeline (Jenkins User Handbook, "Pipeline Steps"), and Groovy's `println`.
#[derive(Clone, Copy, Debug, PartialEq, Eq)]
pub enum Step {
    /// Logs a line, and makes no flow node.
    Println,
    /// Logs a line.
    Echo,
    /// Throws an abort.
    Error,
    /// Warns, and makes the result at least UNSTABLE: the step `unstable`.
    MakeUnstable,
    /// A part of the build under a name.
    Stage,
    /// Goes on behind a throwable, with a worse result.
    CatchError,
    /// Begins its body again where it fails.
    Retry,
    /// Waits for an executor, and holds it for its body.
    Node,
    /// A folder for its body.
    Dir,
    /// Further environment variables for its body.
    WithEnv,
    /// Runs a shell script on the executor, and waits for its end.
    Sh,
    /// Waits for a person.
    Input,
    /// Runs branches in threads of their own, and waits for all.
    Parallel,
}

impl Step {
    /// The name by which a script calls it.
    pub fn name(self) -> &'static str
        ensures { result.now ≡ step_name self }
    {
        match self {
            Step::Println => "println",
            Step::Echo => "echo",
            Step::Error => "error",
            Step::MakeUnstable => "unstable",
            Step::Stage => "stage",
            Step::CatchError => "catchError",
            Step::Retry => "retry",
            Step::Node => "node",
            Step::Dir => "dir",
            Step::WithEnv => "withEnv",
            Step::Sh => "sh",
            Step::Input => "input",
            Step::Parallel => "parallel",
        }
    }
}
