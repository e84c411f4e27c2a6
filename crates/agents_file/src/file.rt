//! The whole file, as a JSON value.
ghost use Rattle.std.specs.Prelude.{◌≡◌, ◌≤◌, None, IfOk, IfErr};
ghost use Rattle.serde_json.specs.View.{view};
ghost use Rattle.model_run.specs.AgentsFaults.{file_faults};
ghost use Rattle.agents_file.specs.Agents.{executor_sum, fields_faults, file_of};
ghost use Rattle.agents_file.specs.FirstFault.{TellsFirst, first};

use crate::agents::{Agents, agent_list, check_executors, check_names};
use crate::keys::{check_agent_keys, check_keys};
use crate::members::{looks, name};
use crate::path::{Object, Path};
use crate::refusal::AgentsRefusal;
use model_run::AgentsKind;
use model_text::Text;
use serde_json::Value;
use std::alloc::Global;

/// What the file says.
#[derive(Drop)]
pub(crate) struct File {
    pub job: Text,
    pub looks: u32,
    pub agents: Agents,
}

/// The file that this value has to be: its members are checked first, then its keys, and then what its agents are together.
///
/// # Errors
///
/// Its first fault; `Memory` where the memory was refused.
pub(crate) fn read_file(alloc: Global, value: &Value) -> Result<File, AgentsRefusal>
    ensures form { IfOk result (λ _. first (file_faults (view value.now)) ≡ None) }
    ensures value { IfOk result (λ file. file ≡ file_of (view value.now)) }
    ensures few { IfOk result (λ file. executor_sum file.agents ≤ 64) }
    ensures fault { IfErr result (TellsFirst (file_faults (view value.now))) }
{
    let Some(members) = value.as_object() else {
        return Err(Path::File.refusal(alloc, AgentsKind::WrongType));
    };
    let file = fields(alloc, value)?;
    check_keys(alloc, Object::File, members)?;
    check_agent_keys(alloc, value.get("agents"))?;
    check_names(alloc, file.agents.as_slice())?;
    check_executors(alloc, file.agents.as_slice())?;
    Ok(file)
}

/// The members that the file has to have, and may have.
fn fields(alloc: Global, value: &Value) -> Result<File, AgentsRefusal>
    ensures form { IfOk result (λ _. first (fields_faults (view value.now)) ≡ None) }
    ensures value { IfOk result (λ file. file ≡ file_of (view value.now)) }
    ensures fault { IfErr result (TellsFirst (fields_faults (view value.now))) }
{
    let job = Path::Member(Object::File, "job").told(alloc, name(value.get("job")))?;
    let looks = Path::Member(Object::File, "looks").told(alloc, looks(value.get("looks")))?;
    let agents = agent_list(alloc, value.get("agents"))?;
    Ok(File {
        job: Text::from_str(alloc, job)?,
        looks,
        agents,
    })
}
