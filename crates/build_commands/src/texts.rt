//! The line that tells a fault of the agents file.
ghost use Rattle.std.specs.Prelude.{◌≡◌, IfOk};
ghost use Rattle.build_commands.specs.Lines.{agents_line};

use model_run::AgentsKind;
use model_text::Text;
use std::alloc::{AllocError, Global};

/// The line that tells a fault of the agents file.
///
/// # Errors
///
/// `AllocError` where the memory was refused.
pub fn agents_text(alloc: Global, path: &Text, kind: AgentsKind) -> Result<Text, AllocError>
    ensures { IfOk result (λ text. text ≡ agents_line path.now kind) }
{
    let kind = format!(in alloc; "{kind}\n")?;
    let mut text = Text::from_str(alloc, "agents.json: ")?;
    text.append(path.as_slice())?;
    text.append(b": ")?;
    text.append(kind.as_bytes())?;
    Ok(text)
}
