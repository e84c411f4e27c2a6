//! The parameters of the steps.

ghost use Rattle.std.specs.Prelude.{◌≡◌, Some, None, if◌then◌else◌, option_map};
ghost use Rattle.model_run.specs.Names.{same_text};
ghost use Rattle.model_run.specs.declared.step.Step.TheVariants.{CatchError, Input, Sh};
ghost use Rattle.model_run.specs.StepTable.{has_body, main_name, parameters, sort_of, takes_map};
ghost use Rattle.step_arguments.specs.Parameters.{needs_main, sort_seen};

use model_run::Step;

/// What a parameter takes.
#[derive(Clone, Copy, Debug, PartialEq, Eq)]
pub(crate) enum Sort {
    /// The text of any value.
    AnyText,
    /// A text that is not empty and has no blank.
    Identifier,
    /// A whole number of at least 1.
    Positive,
    /// A truth value.
    Flag,
    /// The name of a result.
    ResultName,
    /// A list of texts `A=b`.
    Overrides,
    /// A map from names to closures.
    Closures,
}

/// What the parameter of this name takes, where the step has one.
pub(crate) fn sort_of(step: Step, name: &[u8]) -> Option<Sort>
    ensures { option_map sort_seen result ≡ sort_of name.now (parameters step) }
{
    match step {
        Step::Println => only(name, "value", Sort::AnyText),
        Step::Echo => only(name, "message", Sort::AnyText),
        Step::Error => only(name, "message", Sort::AnyText),
        Step::MakeUnstable => only(name, "message", Sort::AnyText),
        Step::Stage => only(name, "name", Sort::AnyText),
        Step::CatchError => sort_of_catch_error(name),
        Step::Retry => only(name, "count", Sort::Positive),
        Step::Node => only(name, "label", Sort::AnyText),
        Step::Dir => only(name, "path", Sort::AnyText),
        Step::WithEnv => only(name, "overrides", Sort::Overrides),
        Step::Sh => sort_of_sh(name),
        Step::Input => sort_of_input(name),
        Step::Parallel => only(name, "branches", Sort::Closures),
    }
}

/// The same of a step with one parameter.
fn only(name: &[u8], known: &str, sort: Sort) -> Option<Sort>
    ensures { result ≡ if same_text name.now known.now then Some sort else None }
{
    if name == known.as_bytes() {
        Some(sort)
    } else {
        None
    }
}

/// The same of `catchError`.
fn sort_of_catch_error(name: &[u8]) -> Option<Sort>
    ensures { option_map sort_seen result ≡ sort_of name.now (parameters CatchError) }
{
    if name == b"message".as_slice() {
        Some(Sort::AnyText)
    } else if name == b"buildResult".as_slice() {
        Some(Sort::ResultName)
    } else {
        None
    }
}

/// The same of `sh`.
fn sort_of_sh(name: &[u8]) -> Option<Sort>
    ensures { option_map sort_seen result ≡ sort_of name.now (parameters Sh) }
{
    if name == b"script".as_slice() {
        Some(Sort::AnyText)
    } else if name == b"returnStatus".as_slice() {
        Some(Sort::Flag)
    } else if name == b"returnStdout".as_slice() {
        Some(Sort::Flag)
    } else if name == b"label".as_slice() {
        Some(Sort::AnyText)
    } else {
        None
    }
}

/// The same of `input`.
fn sort_of_input(name: &[u8]) -> Option<Sort>
    ensures { option_map sort_seen result ≡ sort_of name.now (parameters Input) }
{
    if name == b"message".as_slice() {
        Some(Sort::AnyText)
    } else if name == b"id".as_slice() {
        Some(Sort::Identifier)
    } else if name == b"ok".as_slice() {
        Some(Sort::AnyText)
    } else {
        None
    }
}

/// The name of the main parameter of a step.
pub(crate) fn main_name(step: Step) -> &'static str
    ensures { result.now ≡ main_name (parameters step) }
{
    match step {
        Step::Println => "value",
        Step::Echo => "message",
        Step::Error => "message",
        Step::MakeUnstable => "message",
        Step::Stage => "name",
        Step::CatchError => "message",
        Step::Retry => "count",
        Step::Node => "label",
        Step::Dir => "path",
        Step::WithEnv => "overrides",
        Step::Sh => "script",
        Step::Input => "message",
        Step::Parallel => "branches",
    }
}

/// Whether the main parameter of a step has to be given. The others need not.
pub(crate) fn needs_main(step: Step) -> bool
    ensures { result ≡ needs_main step }
{
    match step {
        Step::CatchError => false,
        Step::Node => false,
        _ => true,
    }
}

/// Whether a step has a body.
pub(crate) fn has_body(step: Step) -> bool
    ensures { result ≡ has_body step }
{
    match step {
        Step::Stage => true,
        Step::CatchError => true,
        Step::Retry => true,
        Step::Node => true,
        Step::Dir => true,
        Step::WithEnv => true,
        _ => false,
    }
}

/// Whether a single map is the main argument itself, and not arguments with names.
pub(crate) fn takes_map(step: Step) -> bool
    ensures { result ≡ takes_map step }
{
    match step {
        Step::Println => true,
        Step::Parallel => true,
        _ => false,
    }
}
