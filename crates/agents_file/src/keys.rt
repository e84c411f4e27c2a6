//! Members that no object of the file has.
ghost use Rattle.std.specs.Prelude.{◌≡◌, None, OnOk, IfErr, codes};
ghost use Rattle.serde_json.specs.View.{items_view, members_view, view};
ghost use Rattle.model_run.specs.AgentsFaults.{agent_keys_faults, items_faults, unknown_keys};
ghost use Rattle.model_run.specs.AgentsMembers.{items_of};
ghost use Rattle.agents_file.specs.FirstFault.{TellsFirst, first};
ghost use Rattle.agents_file.specs.Members.{seen};
ghost use Rattle.agents_file.specs.Paths.{key_path, known_keys};

use crate::path::{Object, Path};
use crate::refusal::AgentsRefusal;
use model_run::AgentsKind;
use serde_json::{Map, Value};
use std::alloc::Global;

/// Refuses an object with a member that no object of its kind has: the first in the order of the bytes of the keys.
pub(crate) fn check_keys(
    alloc: Global,
    object: Object,
    members: &Map<String, Value>,
) -> Result<(), AgentsRefusal>
    ensures form { OnOk result (first (unknown_keys (known_keys object) (key_path object) (members_view members.now.entries)) ≡ None) }
    ensures fault { IfErr result (TellsFirst (unknown_keys (known_keys object) (key_path object) (members_view members.now.entries))) }
{
    for key in members.keys() {
        if !object.knows(key) {
            let path = Path::Member(object, key);
            return Err(path.refusal(alloc, AgentsKind::UnknownKey));
        }
    }
    Ok(())
}

/// Does so of each agent in turn.
pub(crate) fn check_agent_keys(alloc: Global, agents: Option<&Value>) -> Result<(), AgentsRefusal>
    ensures form { OnOk result (first (items_faults agent_keys_faults (codes "agents") 0 (items_of (seen agents.entry))) ≡ None) }
    ensures fault { IfErr result (TellsFirst (items_faults agent_keys_faults (codes "agents") 0 (items_of (seen agents.entry)))) }
{
    match agents.and_then(Value::as_array) {
        Some(agents) => check_each(alloc, agents),
        None => Ok(()),
    }
}

/// Does so of these agents.
fn check_each(alloc: Global, agents: &[Value]) -> Result<(), AgentsRefusal>
    ensures form { OnOk result (first (items_faults agent_keys_faults (codes "agents") 0 (items_view agents.now)) ≡ None) }
    ensures fault { IfErr result (TellsFirst (items_faults agent_keys_faults (codes "agents") 0 (items_view agents.now))) }
{
    for (at, agent) in agents.iter().enumerate() {
        if let Some(members) = agent.as_object() {
            check_keys(alloc, Object::Agent(at), members)?;
        }
    }
    Ok(())
}
