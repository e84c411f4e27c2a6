//! Executors: which of them fit, and which are held.
ghost use Rattle.std.specs.Prelude.{◌≡◌, ◌≤◌, ◌∷◌, suc, length, IfOk, OnOk};
ghost use Rattle.std.specs.Option.{option_copied};
ghost use Rattle.model_run.specs.Grants.{executor_of, is_held, is_of_agent, executor_fits, workspace_number, with_held};
ghost use Rattle.label_expr.specs.Conditions.{fits};
ghost use Rattle.build_requests.specs.Workspaces.{is_used, row_held, place_for};

use label_expr::{LabelExpr, LabelRefusal, read_label};
use model_run::{Executor, Held, HeldExecutors, Site};
use model_text::{Text, Texts};
use std::alloc::{AllocError, Global};
use std::mem;

/// The executor of this number.
pub(crate) fn executor_of(site: &Site, number: u32) -> Option<&Executor>
    ensures { option_copied result ≡ executor_of site.now number }
{
    for executor in site.executors.as_slice() {
        if executor.number == number {
            return Some(executor);
        }
    }
    None
}

/// Whether a `node` step holds the executor of this number.
pub(crate) fn is_held(held: &[Held], number: u32) -> bool
    ensures { result ≡ is_held held.now number }
{
    held.iter().any(|one| one.executor == number)
}

/// Whether an executor fits a label; none fits a label with a fault. `AllocError` where the memory was refused.
pub(crate) fn executor_fits(
    alloc: Global,
    label: Option<&Text>,
    executor: &Executor,
) -> Result<bool, AllocError>
    ensures { IfOk result (λ fits. fits ≡ executor_fits (option_copied label.entry) executor.now) }
{
    match read_label(alloc, label) {
        Ok(expr) => matches_executor(&expr, executor),
        Err(LabelRefusal::Fault { .. }) => Ok(false),
        Err(LabelRefusal::Memory) => Err(AllocError),
    }
}

/// Whether it takes an executor of these labels and this agent.
fn matches_executor(expr: &LabelExpr, executor: &Executor) -> Result<bool, AllocError>
    ensures { IfOk result (λ matches. matches ≡ fits (executor.now.agent ∷ executor.now.labels) expr.now) }
{
    let mut labels = executor.labels.clone()?.into_vec();
    labels.insert(0, executor.agent.clone()?)?;
    let labels = Texts::from_vec(labels);
    Ok(expr.matches(labels.as_slice()))
}

/// Whether the executor of this number is of the agent of this name.
fn is_of_agent(site: &Site, agent: &Text, number: u32) -> bool
    ensures { result ≡ is_of_agent agent.now (executor_of site.now number) }
{
    match executor_of(site, number) {
        Some(executor) => executor.agent == *agent,
        None => false,
    }
}

/// Whether a held executor of this agent uses the workspace of this number.
fn is_used(site: &Site, held: &[Held], agent: &Text, workspace: u32) -> bool
    ensures { result ≡ is_used site.now held.now agent.now workspace }
{
    for one in held {
        if one.workspace == workspace && is_of_agent(site, agent, one.executor) {
            return true;
        }
    }
    false
}

/// The lowest workspace number, from 1, that no held executor of this agent uses.
fn workspace_number(site: &Site, held: &[Held], executor: &Executor) -> u32
    requires { suc (length held.now) ≤ 4294967295 }
    ensures { result ≡ workspace_number site.now held.now executor.now }
{
    let mut number = 1;
    for _ in 0..held.len() {
        if !is_used(site, held, &executor.agent, number) {
            return number;
        }
        number += 1;
    }
    number
}

/// The executor of this number is held by this request, in the workspace of the lowest number that no held executor of its
/// agent uses; nothing changes where the site has none of this number. After `AllocError`, where the memory was refused,
/// the held executors are open.
pub fn hold_executor(
    alloc: Global,
    site: &Site,
    held: &mut HeldExecutors,
    request: u32,
    number: u32,
) -> Result<(), AllocError>
    requires { suc (length held.old) ≤ 4294967295 }
    ensures { OnOk result (held.new ≡ row_held site.now request number (executor_of site.now number) held.old) }
{
    let Some(executor) = executor_of(site, number) else {
        return Ok(());
    };
    let one = Held {
        executor: number,
        request,
        workspace: workspace_number(site, held.as_slice(), executor),
    };
    hold(alloc, held, one)
}

/// A held executor stands before those with higher numbers.
fn hold(alloc: Global, held: &mut HeldExecutors, one: Held) -> Result<(), AllocError>
    ensures { OnOk result (held.new ≡ with_held one held.old) }
{
    let mut rows = mem::replace(held, HeldExecutors::new(alloc)).into_vec();
    let place = place_for(rows.as_slice(), one.executor);
    rows.insert(place, one)?;
    *held = HeldExecutors::from_vec(rows);
    Ok(())
}

/// How many of them stand before an executor of this number.
fn place_for(held: &[Held], number: u32) -> usize
    ensures { result ≡ place_for number held.now }
{
    for place in 0..held.len() {
        if number < held[place].executor {
            return place;
        }
    }
    held.len()
}
