//! Where a fault stands in an agents file.
ghost use Rattle.std.specs.Prelude.{◌≡◌, IfOk, MatchResult, IsErrAnd, Ok};
ghost use Rattle.agents_file.specs.Paths.{key_path, known_keys, path_text};
ghost use Rattle.agents_file.specs.FirstFault.{Tells};
ghost use Rattle.model_run.specs.AgentsFaults.{among};

use crate::refusal::AgentsRefusal;
use model_run::AgentsKind;
use model_text::Text;
use std::alloc::{AllocError, Global};

/// An object of the file: the whole file, or one of its agents, counted from 0.
#[derive(Clone, Copy)]
pub(crate) enum Object {
    /// The whole file.
    File,
    /// An agent, counted from 0.
    Agent(usize),
}

impl Object {
    /// Whether an object of this kind may have a member of this name.
    pub(crate) fn knows(self, key: &str) -> bool
        ensures { result ≡ among (known_keys self) key.now }
    {
        match self {
            Object::File => key == "job" || key == "looks" || key == "agents",
            Object::Agent(_) => {
                key == "name" || key == "root" || key == "labels" || key == "executors"
            }
        }
    }
}

/// Where a fault stands.
#[derive(Clone, Copy)]
pub(crate) enum Path<'v> {
    /// The whole file.
    File,
    /// An agent, counted from 0.
    Agent(usize),
    /// The member of an object.
    Member(Object, &'v str),
    /// Of this agent the label at this place, both counted from 0.
    Label(usize, usize),
}

impl Path<'_> {
    /// What users see of it, or `AllocError` where the memory was refused.
    fn text(self, alloc: Global) -> Result<Text, AllocError>
        ensures { IfOk result (λ text. text ≡ path_text self.entry) }
    {
        let text = match self {
            Path::File => String::from_str(alloc, ".")?,
            Path::Agent(agent) => format!(in alloc; "agents[{agent}]")?,
            Path::Member(Object::File, key) => String::from_str(alloc, key)?,
            Path::Member(Object::Agent(agent), key) => format!(in alloc; "agents[{agent}].{key}")?,
            Path::Label(agent, label) => format!(in alloc; "agents[{agent}].labels[{label}]")?,
        };
        Ok(Text::from_vec(text.into_bytes()))
    }

    /// The refusal for a fault of this kind here.
    pub(crate) fn refusal(self, alloc: Global, kind: AgentsKind) -> AgentsRefusal
        ensures { Tells (path_text self.entry) kind result }
    {
        match self.text(alloc) {
            Ok(path) => AgentsRefusal::Fault { path, kind },
            Err(_) => AgentsRefusal::Memory,
        }
    }

    /// What was read here, its fault with this path.
    pub(crate) fn told<T>(
        self,
        alloc: Global,
        read: Result<T, AgentsKind>,
    ) -> Result<T, AgentsRefusal>
        ensures { MatchResult read (λ value. result ≡ Ok value) (λ kind. IsErrAnd result (Tells (path_text self.entry) kind)) }
    {
        match read {
            Ok(value) => Ok(value),
            Err(kind) => Err(self.refusal(alloc, kind)),
        }
    }
}
