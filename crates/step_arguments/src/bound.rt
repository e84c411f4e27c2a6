//! The arguments of a call as its step uses them.

use model_run::BuildResult;
use model_text::{Pairs, Text};
use model_values::Value;

/// A step with its arguments. One that may be left out is an `Option`, or the step's own choice stands in its place;
/// `body` is the closure of the step's body.
#[derive(Drop)]
pub enum Bound {
    Println {
        value: Text,
    },
    Echo {
        message: Text,
    },
    Error {
        message: Text,
    },
    MakeUnstable {
        message: Text,
    },
    Stage {
        name: Text,
        body: Value,
    },
    CatchError {
        /// What is logged as its text, where it was given.
        message: Option<Value>,
        /// What the build's result is at least, behind a failure: FAILURE where none is given.
        result: BuildResult,
        body: Value,
    },
    Retry {
        /// How many times more the body is begun where it fails, from 0.
        more: u32,
        body: Value,
    },
    Node {
        /// Its label, where it has one that is not blank.
        label: Option<Text>,
        body: Value,
    },
    Dir {
        path: Text,
        body: Value,
    },
    WithEnv {
        overrides: Pairs,
        body: Value,
    },
    Sh {
        script: Text,
        /// Whether the exit code is the step's value (`returnStatus`).
        status: bool,
        /// Whether its output is the step's value (`returnStdout`).
        keep_out: bool,
    },
    Input {
        message: Text,
        /// The word for going on: `Proceed` where none is given.
        ok: Text,
        id: Option<Text>,
    },
    Parallel {
        /// The map of the branches: closures by their names.
        branches: Value,
    },
}
