//! The script and the agents file.
ghost use Rattle.std.specs.Prelude.{◌≡◌, ◌++◌, ◌<◌, ◌^◌, string_bytes, IfOk, OnOk};
ghost use Rattle.generated_build.specs.Files.{agents_of_any, script_of, stage_lines};

use std::alloc::{AllocError, Global};

/// The bytes of a script and of an agents file.
#[derive(Drop)]
pub struct GeneratedFiles {
    pub script: Vec<u8>,
    pub agents: Vec<u8>,
}

/// The script of so many stages, and an agents file with one executor.
///
/// Each stage adds its number, from 1 on, to a sum, keeps the sum in a list, writes it to the log, and runs a task on the executor. The last
/// line writes the sum and the length of the list.
///
/// # Errors
///
/// `AllocError` where the memory was refused.
pub fn generated_files(alloc: Global, stages: u32) -> Result<GeneratedFiles, AllocError>
    ensures script { IfOk result (λ files. files.script.items ≡ script_of stages) }
    ensures agents { IfOk result (λ files. files.agents.items ≡ agents_of_any) }
{
    let mut script = Vec::from_slice(alloc, b"total = 0\nseen = []\n")?;
    for made in 0..stages {
        put_stage(alloc, &mut script, made + 1)?;
    }
    script.extend_from_slice(b"echo \"sum ${total} of ${seen.size()}\"\n")?;
    let agents = Vec::from_slice(alloc, AGENTS)?;
    Ok(GeneratedFiles { script, agents })
}

/// An agents file with one executor.
const AGENTS: &[u8] =
    b"{\"job\":\"gen\",\"agents\":[{\"name\":\"gen\",\"root\":\"/gen\",\"executors\":1}]}";

/// Puts the lines of the stage with this number behind a script.
fn put_stage(alloc: Global, script: &mut Vec<u8>, stage: u32) -> Result<(), AllocError>
    ensures { OnOk result (script.new.items ≡ script.old.items ++ stage_lines stage) }
{
    let lines = format!(in alloc;
        "stage('S{stage}') {{\n  total = total + {stage}\n  seen.add(total)\n  echo \"stage {stage} total ${{total}}\"\n  node {{ sh 'run {stage}' }}\n}}\n"
    )?;
    script.extend_from_slice(lines.as_bytes())
}
