//! One agent of the file.
ghost use Rattle.std.specs.Prelude.{◌≡◌, None, IfOk, IfErr, codes};
ghost use Rattle.serde_json.specs.View.{items_view, view};
ghost use Rattle.model_run.specs.AgentsFaults.{agent_faults, at_item, at_member, items_faults, labels_faults, name_faults, optional};
ghost use Rattle.model_run.specs.AgentsMembers.{items_of, texts_of};
ghost use Rattle.agents_file.specs.Agents.{agent_of, labels_path};
ghost use Rattle.agents_file.specs.FirstFault.{TellsFirst, first};
ghost use Rattle.agents_file.specs.Members.{seen};

use crate::members::{executors, name, root};
use crate::path::{Object, Path};
use crate::refusal::AgentsRefusal;
use model_run::AgentsKind;
use model_text::{Text, Texts};
use serde_json::Value;
use std::alloc::Global;

/// The most labels of an agent.
const LABEL_LIMIT: usize = 64;

/// What the file says of one agent.
#[derive(Drop)]
pub(crate) struct Agent {
    pub name: Text,
    pub root: Text,
    pub labels: Texts,
    pub executors: u32,
}

/// The agent that has to stand here, at this place of the list.
///
/// # Errors
///
/// Its first fault of type, form or range; `Memory` where the memory was refused.
pub(crate) fn read_agent(alloc: Global, at: usize, value: &Value) -> Result<Agent, AgentsRefusal>
    ensures form { IfOk result (λ _. first (agent_faults (at_item (codes "agents") at) (view value.now)) ≡ None) }
    ensures value { IfOk result (λ agent. agent ≡ agent_of (view value.now)) }
    ensures fault { IfErr result (TellsFirst (agent_faults (at_item (codes "agents") at) (view value.now))) }
{
    if !value.is_object() {
        return Err(Path::Agent(at).refusal(alloc, AgentsKind::WrongType));
    }
    let own = Object::Agent(at);
    let name = Path::Member(own, "name").told(alloc, name(value.get("name")))?;
    let root = Path::Member(own, "root").told(alloc, root(value.get("root")))?;
    let labels = labels(alloc, at, value.get("labels"))?;
    let executors = Path::Member(own, "executors").told(alloc, executors(value.get("executors")))?;
    Ok(Agent {
        name: Text::from_str(alloc, name)?,
        root: Text::from_str(alloc, root)?,
        labels,
        executors,
    })
}

/// The labels that may stand here, of the agent at this place: at most 64 names.
fn labels(alloc: Global, agent: usize, value: Option<&Value>) -> Result<Texts, AgentsRefusal>
    ensures form { IfOk result (λ _. first (optional labels_faults (labels_path agent) (seen value.entry)) ≡ None) }
    ensures value { IfOk result (λ labels. labels ≡ texts_of (items_of (seen value.entry))) }
    ensures fault { IfErr result (TellsFirst (optional labels_faults (labels_path agent) (seen value.entry))) }
{
    let Some(value) = value else {
        return Ok(Texts::new(alloc));
    };
    let path = Path::Member(Object::Agent(agent), "labels");
    let Some(labels) = value.as_array() else {
        return Err(path.refusal(alloc, AgentsKind::WrongType));
    };
    if labels.len() > LABEL_LIMIT {
        return Err(path.refusal(alloc, AgentsKind::WrongValue));
    }
    names(alloc, agent, labels)
}

/// These labels of the agent at this place, which have to be names.
fn names(alloc: Global, agent: usize, labels: &[Value]) -> Result<Texts, AgentsRefusal>
    ensures form { IfOk result (λ _. first (items_faults name_faults (labels_path agent) 0 (items_view labels.now)) ≡ None) }
    ensures value { IfOk result (λ names. names ≡ texts_of (items_view labels.now)) }
    ensures fault { IfErr result (TellsFirst (items_faults name_faults (labels_path agent) 0 (items_view labels.now))) }
{
    let mut names = Texts::new(alloc);
    for (at, label) in labels.iter().enumerate() {
        let name = Path::Label(agent, at).told(alloc, name(Some(label)))?;
        names.push(Text::from_str(alloc, name)?)?;
    }
    Ok(names)
}
