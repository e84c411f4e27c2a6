//! The script and the agents file, read and judged.
ghost use Rattle.std.specs.Prelude.{◌≡◌, ◌+◌};
ghost use Rattle.jp_io.specs.Whole.{TakesAtMost};
ghost use Rattle.model_run.specs.AgentsFile.{agents_file, Means};
ghost use Rattle.build_commands.specs.Files.{script_limit, agents_limit};
ghost use Rattle.build_commands.specs.Inputs.{taken_from};
ghost use Rattle.build_commands.specs.Lines.{agents_line, fault_line};
ghost use Rattle.build_commands.specs.Plans.{Judged, Plans};
ghost use Rattle.build_commands.specs.Refusals.{Says};

use crate::refusal::Refusal;
use crate::{Files, agents_text, read_files};
use agents_file::{AgentsRefusal, read_agents};
use groovy_parse::parse;
use jp_io::{ReadFault, Source};
use model_run::{AgentsKind, Site};
use model_syntax::{ScriptFault, ScriptRefusal, Tree};
use model_text::{Bytes, Text};
use std::alloc::{AllocError, Global};

/// A script and an agents file without a fault.
#[derive(Drop)]
pub struct Plan {
    /// All bytes of the script.
    pub script: Bytes,
    /// All bytes of the agents file.
    pub agents: Bytes,
    /// The script's tree.
    pub tree: Tree,
    /// What executors the agents file means.
    pub site: Site,
}

/// Reads the script and then the agents file, and then judges the agents file and then the script.
///
/// Each source is asked for at most one byte more than its file may have.
///
/// # Errors
///
/// `ReadFailed` only where a source counted a fault; else `AgentsRefused` exactly where the agents file has a fault; else `TooLong` and
/// `ScriptRefused` exactly where the script is too long, or has a fault. Want of memory may come in place of each of them but
/// `ReadFailed`, and no other refusal comes.
pub fn read_plan<S: Source>(alloc: Global, script: &mut S, agents: &mut S) -> Result<Plan, Refusal>
    ensures plans { Plans (taken_from S.Source script.old script.new) (taken_from S.Source agents.old agents.new) result }
    ensures most_script { TakesAtMost (script_limit + 1) (S.left script.old) (S.left script.new) }
    ensures most_agents { TakesAtMost (agents_limit + 1) (S.left agents.old) (S.left agents.new) }
{
    match read_files(alloc, script, agents) {
        Ok(files) => judge(alloc, files),
        Err(ReadFault::Failed) => Err(Refusal::ReadFailed),
        Err(ReadFault::Memory) => Err(Refusal::OutOfMemory),
    }
}

/// Judges the agents file and then the script.
pub(crate) fn judge(alloc: Global, files: Files) -> Result<Plan, Refusal>
    ensures { Judged files.script.items files.agents.items result }
{
    match read_agents(alloc, &files.agents) {
        Ok(site) => judge_script(alloc, files, site),
        Err(AgentsRefusal::Fault { path, kind }) => Err(agents_refusal(alloc, &path, kind)),
        Err(AgentsRefusal::Memory) => Err(Refusal::OutOfMemory),
    }
}

/// The same where the agents file means this site.
fn judge_script(alloc: Global, files: Files, site: Site) -> Result<Plan, Refusal>
    requires { agents_file files.agents.items ≡ Means site }
    ensures { Judged files.script.items files.agents.items result }
{
    match parse(alloc, &files.script) {
        Ok(tree) => {
            let Files { script, agents } = files;
            Ok(Plan {
                script: Bytes::from_vec(script),
                agents: Bytes::from_vec(agents),
                tree,
                site,
            })
        }
        Err(ScriptRefusal::Fault(fault)) => Err(script_refusal(alloc, fault)),
        Err(ScriptRefusal::TooLong) => Err(Refusal::TooLong),
        Err(ScriptRefusal::Memory) => Err(Refusal::OutOfMemory),
    }
}

/// The refusal of an agents file with this first fault.
fn agents_refusal(alloc: Global, path: &Text, kind: AgentsKind) -> Refusal
    ensures { Says 13 (agents_line path.now kind) result }
{
    match agents_text(alloc, path, kind) {
        Ok(text) => Refusal::AgentsRefused(text),
        Err(AllocError) => Refusal::OutOfMemory,
    }
}

/// The refusal of a script with this first fault.
fn script_refusal(alloc: Global, fault: ScriptFault) -> Refusal
    ensures { Says 4 (fault_line fault) result }
{
    let ScriptFault { line, column, kind } = fault;
    match format!(in alloc; "Jenkinsfile:{line}:{column}: {kind}\n") {
        Ok(text) => Refusal::ScriptRefused(text),
        Err(_) => Refusal::OutOfMemory,
    }
}
