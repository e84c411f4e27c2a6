//! The site of a file, or its first fault.
ghost use Rattle.std.specs.Prelude.{◌≡◌, ◌<◌, ◌≤◌, ℕ, List, true, if◌then◌else◌, Some, IfOk, IfErr, OnOk, Err, codes, length};
ghost use Rattle.std.specs.Str.{is_utf8};
ghost use Rattle.serde_json.specs.Read.{read};
ghost use Rattle.serde_json.specs.View.{view};
ghost use Rattle.model_run.specs.declared.agents.AgentsKind.{AgentsKind as Kind};
ghost use Rattle.model_run.specs.declared.agents.AgentsKind.TheVariants.{NotJson, TooLong};
ghost use Rattle.model_run.specs.AgentsFile.{Means, Refused, agents_file, of_json};
ghost use Rattle.agents_file.specs.declared.refusal.AgentsRefusal.TheVariants.{Fault};
ghost use Rattle.agents_file.specs.FirstFault.{IsRefusedFor};

use crate::file::read_file;
use crate::path::Path;
use crate::refusal::AgentsRefusal;
use crate::site::site;
use model_run::{AgentsKind, Site};
use serde_json::{Category, Value};
use std::alloc::Global;

/// The most bytes that an agents file may have.
pub const FILE_LIMIT: usize = 65_536;

/// The site that the bytes of an agents file mean.
///
/// # Errors
///
/// `Fault` exactly where the bytes are no agents file, with their first fault: the path of the member that is wrong, and what is
/// wrong. It is `too long` at `.` exactly where there are more than 65,536 bytes, and then nothing of them is read. `Memory`
/// where the memory was refused.
pub fn read_agents(alloc: Global, bytes: &[u8]) -> Result<Site, AgentsRefusal>
    ensures site { IfOk result (λ site. agents_file bytes.now ≡ Means site) }
    ensures fault { (path : List ℕ) (kind : Kind) → result ≡ Err (Fault path kind) → agents_file bytes.now ≡ Refused path kind }
    ensures long { (path : List ℕ) → result ≡ Err (Fault path TooLong) → 65536 < length bytes.now }
{
    if bytes.len() > FILE_LIMIT {
        return Err(Path::File.refusal(alloc, AgentsKind::TooLong));
    }
    read_short(alloc, bytes)
}

/// The same for bytes within the limit.
fn read_short(alloc: Global, bytes: &[u8]) -> Result<Site, AgentsRefusal>
    requires { length bytes.now ≤ 65536 }
    ensures site { IfOk result (λ site. agents_file bytes.now ≡ Means site) }
    ensures fault { IfErr result (IsRefusedFor (agents_file bytes.now)) }
{
    let value = json(alloc, bytes)?;
    let file = read_file(alloc, &value)?;
    let site = site(alloc, file)?;
    Ok(site)
}

/// The JSON value that the bytes are.
fn json(alloc: Global, bytes: &[u8]) -> Result<Value, AgentsRefusal>
    ensures text { OnOk result (is_utf8 bytes.now ≡ true) }
    ensures value { IfOk result (λ value. read bytes.now ≡ Some (view value)) }
    ensures fault { IfErr result (IsRefusedFor (if is_utf8 bytes.now then of_json (read bytes.now) else Refused (codes ".") NotJson)) }
{
    match Value::from_slice(alloc, bytes) {
        Ok(value) => Ok(value),
        Err(error) => match error.classify() {
            Category::Memory => Err(AgentsRefusal::Memory),
            _ => Err(Path::File.refusal(alloc, AgentsKind::NotJson)),
        },
    }
}
