//! Why an agents file means no site.
use model_run::AgentsKind;
use model_text::Text;
use std::alloc::AllocError;

/// Why an agents file means no site.
#[derive(PartialEq, Eq, Debug, Drop)]
pub enum AgentsRefusal {
    /// The memory was refused.
    Memory,
    /// The first fault of the file: what is wrong, and at which path, as `agents[0].labels[1]`. That of the whole file is `.`.
    Fault { path: Text, kind: AgentsKind },
}

impl From<AllocError> for AgentsRefusal {
    ghost use Rattle.std.specs.Prelude.{◌≡◌};
    ghost use Rattle.agents_file.specs.declared.refusal.AgentsRefusal.TheVariants.{Memory};

    ghost from_gives = { λ _ e. e ≡ Memory };

    fn from(_: AllocError) -> AgentsRefusal {
        AgentsRefusal::Memory
    }
}
