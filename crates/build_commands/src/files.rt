//! The script and the agents file, read.
ghost use Rattle.std.specs.Prelude.{◌≡◌, ◌⊎◌, ℕ, ◌+◌, ◌<◌, ◌≤◌, IfOk, IsErrOf, vec_len};
ghost use Rattle.std.specs.Io.KnownBytes.{Consumes, IsAtEnd};
ghost use Rattle.jp_io.specs.declared.whole.ReadFault.TheVariants.{Memory, Failed};
ghost use Rattle.jp_io.specs.Whole.{TakesAtMost};
ghost use Rattle.build_commands.specs.Files.{agents_limit, script_limit, ReadWhole};
ghost use Rattle.build_commands.specs.Inputs.{taken_from, HasFailed, IsCalm};

use agents_file::FILE_LIMIT;
use groovy_parse::SCRIPT_LIMIT;
use jp_io::{ReadFault, Source, read_up_to};
use std::alloc::Global;

/// The bytes of a script and of an agents file.
#[derive(Drop)]
pub struct Files {
    pub script: Vec<u8>,
    pub agents: Vec<u8>,
}

/// Reads the script and then the agents file, each up to one byte more than it may have.
///
/// # Errors
///
/// `Failed` where one of the sources failed, and `Memory` where the memory was refused.
pub fn read_files<S: Source>(
    alloc: Global,
    script: &mut S,
    agents: &mut S,
) -> Result<Files, ReadFault>
    ensures script { IfOk result (λ files. ReadWhole script_limit (taken_from S.Source script.old script.new) files.script.items) }
    ensures agents { IfOk result (λ files. ReadWhole agents_limit (taken_from S.Source agents.old agents.new) files.agents.items) }
    ensures most_script { TakesAtMost (script_limit + 1) (S.left script.old) (S.left script.new) }
    ensures most_agents { TakesAtMost (agents_limit + 1) (S.left agents.old) (S.left agents.new) }
    ensures failed { IsErrOf result Failed → HasFailed (taken_from S.Source script.old script.new) ⊎ HasFailed (taken_from S.Source agents.old agents.new) }
    ensures wanting { IsErrOf result Memory → IsCalm (taken_from S.Source script.old script.new) × IsCalm (taken_from S.Source agents.old agents.new) }
{
    let script = read_up_to(alloc, script, SCRIPT_LIMIT + 1)?;
    let agents = read_up_to(alloc, agents, FILE_LIMIT + 1)?;
    Ok(Files { script, agents })
}
