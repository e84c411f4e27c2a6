//! The executors that a file means.
ghost use Rattle.std.specs.Prelude.{◌≡◌, ◌≤◌, ◌+◌, ◌++◌, IfOk, OnOk, length};
ghost use Rattle.agents_file.specs.Agents.{all_executors, executor_of, executor_sum, file_site, some_executors};

use crate::agent::Agent;
use crate::file::File;
use model_run::{Executor, Executors, Site};
use std::alloc::{AllocError, Global};

/// The site of a file: executors are numbered over all agents from 0, and slots within each. `AllocError` where the memory was
/// refused.
pub(crate) fn site(alloc: Global, file: File) -> Result<Site, AllocError>
    requires { executor_sum file.agents ≤ 64 }
    ensures { IfOk result (λ site. site ≡ file_site file) }
{
    let File { job, looks, agents } = file;
    let executors = executors(alloc, agents.as_slice())?;
    Ok(Site {
        job,
        looks,
        executors,
    })
}

/// The executors of all agents.
fn executors(alloc: Global, agents: &[Agent]) -> Result<Executors, AllocError>
    requires { executor_sum agents.now ≤ 64 }
    ensures { IfOk result (λ executors. executors ≡ all_executors 0 agents.now) }
{
    let mut executors = Executors::new(alloc);
    for agent in agents {
        add_executors(&mut executors, agent)?;
    }
    Ok(executors)
}

/// Puts the executors of an agent behind those of the agents before it. `AllocError` where the memory was refused.
fn add_executors(executors: &mut Executors, agent: &Agent) -> Result<(), AllocError>
    requires { length executors.old + agent.now.executors ≤ 64 }
    ensures { OnOk result (executors.new ≡ executors.old ++ some_executors agent.now (length executors.old) 0 agent.now.executors) }
{
    for slot in 0..agent.executors {
        let number = executors.len() as u32;
        executors.push(executor(agent, number, slot)?)?;
    }
    Ok(())
}

/// The executor of an agent with this number over all agents and this slot.
fn executor(agent: &Agent, number: u32, slot: u32) -> Result<Executor, AllocError>
    ensures { IfOk result (λ executor. executor ≡ executor_of agent.now number slot) }
{
    Ok(Executor {
        number,
        agent: agent.name.clone()?,
        root: agent.root.clone()?,
        labels: agent.labels.clone()?,
        slot,
    })
}
