//! The list of agents.
ghost use Rattle.std.specs.Prelude.{◌≡◌, ◌<◌, ◌≤◌, None, [], IfOk, IfErr, OnOk, codes, nat_eq};
ghost use Rattle.std.specs.Cmp.Lexicographic.{pointwise};
ghost use Rattle.std.specs.List.{list_any};
ghost use Rattle.serde_json.specs.View.{items_view};
ghost use Rattle.model_run.specs.AgentsFaults.{agent_faults, agents_faults, items_faults, required};
ghost use Rattle.model_run.specs.AgentsMembers.{items_of};
ghost use Rattle.model_run.specs.declared.agents.AgentsKind.TheVariants.{TooManyExecutors};
ghost use Rattle.agents_file.specs.Agents.{agents_of, executor_sum, repeats};
ghost use Rattle.agents_file.specs.FirstFault.{Tells, TellsFirst, first};
ghost use Rattle.agents_file.specs.Members.{seen};

use crate::agent::{Agent, read_agent};
use crate::members::MOST_EXECUTORS;
use crate::path::{Object, Path};
use crate::refusal::AgentsRefusal;
use model_run::AgentsKind;
use model_text::{Sequence, Text};
use serde_json::Value;
use std::alloc::Global;

/// The agents of a file, in its order.
pub(crate) type Agents = Sequence<Agent>;

/// The list of agents that has to stand here.
///
/// # Errors
///
/// The first fault of type, form or range; `Memory` where the memory was refused.
pub(crate) fn agent_list(alloc: Global, value: Option<&Value>) -> Result<Agents, AgentsRefusal>
    ensures form { IfOk result (λ _. first (required agents_faults (codes "agents") (seen value.entry)) ≡ None) }
    ensures value { IfOk result (λ agents. agents ≡ agents_of (items_of (seen value.entry))) }
    ensures fault { IfErr result (TellsFirst (required agents_faults (codes "agents") (seen value.entry))) }
{
    let path = Path::Member(Object::File, "agents");
    let Some(value) = value else {
        return Err(path.refusal(alloc, AgentsKind::Missing));
    };
    match value.as_array() {
        Some(agents) => each_agent(alloc, agents),
        None => Err(path.refusal(alloc, AgentsKind::WrongType)),
    }
}

/// These agents.
fn each_agent(alloc: Global, values: &[Value]) -> Result<Agents, AgentsRefusal>
    ensures form { IfOk result (λ _. first (items_faults agent_faults (codes "agents") 0 (items_view values.now)) ≡ None) }
    ensures value { IfOk result (λ agents. agents ≡ agents_of (items_view values.now)) }
    ensures fault { IfErr result (TellsFirst (items_faults agent_faults (codes "agents") 0 (items_view values.now))) }
{
    let mut agents = Agents::new(alloc);
    for (at, value) in values.iter().enumerate() {
        agents.push(read_agent(alloc, at, value)?)?;
    }
    Ok(agents)
}

/// Refuses agents of which one has the name of an earlier one.
pub(crate) fn check_names(alloc: Global, agents: &[Agent]) -> Result<(), AgentsRefusal>
    ensures form { OnOk result (first (repeats [] 0 agents.now) ≡ None) }
    ensures fault { IfErr result (TellsFirst (repeats [] 0 agents.now)) }
{
    for (at, agent) in agents.iter().enumerate() {
        if has_name(&agents[..at], &agent.name) {
            let path = Path::Member(Object::Agent(at), "name");
            return Err(path.refusal(alloc, AgentsKind::DuplicateName));
        }
    }
    Ok(())
}

/// Refuses more executors than 64 of all agents together.
pub(crate) fn check_executors(alloc: Global, agents: &[Agent]) -> Result<(), AgentsRefusal>
    ensures form { OnOk result (executor_sum agents.now ≤ 64) }
    ensures fault { IfErr result (λ refusal. (64 < executor_sum agents.now) × Tells (codes "agents") TooManyExecutors refusal) }
{
    let mut left = MOST_EXECUTORS;
    for agent in agents {
        match left.checked_sub(agent.executors) {
            Some(fewer) => left = fewer,
            None => {
                let path = Path::Member(Object::File, "agents");
                return Err(path.refusal(alloc, AgentsKind::TooManyExecutors));
            }
        }
    }
    Ok(())
}

/// Whether one of these agents has this name.
fn has_name(agents: &[Agent], name: &Text) -> bool
    ensures { result ≡ list_any (λ agent. pointwise nat_eq name.now agent.name) agents.now }
{
    agents.iter().any(|agent| *name == agent.name)
}
