//! What single members of the file have to be: names, roots and numbers.
ghost use Rattle.std.specs.Prelude.{◌≡◌, ℕ, List, [], ◌∷◌, None, Some, IfOk, IfErr, slice_get};
ghost use Rattle.std.specs.List.{last_or, list_all};
ghost use Rattle.std.specs.Option.{option_copied};
ghost use Rattle.serde_json.specs.Data.{number, string, unsigned};
ghost use Rattle.serde_json.specs.View.{view};
ghost use Rattle.model_run.specs.AgentsFaults.{begins_control, has_control as has_control_byte, is_name as is_a_name, is_name_byte as is_one_of_a_name, is_root as is_a_root, fault, first_of, is_slash as is_a_slash, name_faults, number_faults, optional, required, root_faults};
ghost use Rattle.model_run.specs.AgentsMembers.{number_or, text_of};
ghost use Rattle.agents_file.specs.Members.{FailsBy, IsNoText, Passes, seen};

use model_run::AgentsKind;
use serde_json::Value;

/// How many looks without news make a task lost, where the file has no `looks`.
const USUAL_LOOKS: u32 = 100_000;
/// The most `looks`.
const MOST_LOOKS: u32 = 1_000_000;
/// The most executors of one agent, and of all agents together.
pub(crate) const MOST_EXECUTORS: u32 = 64;
/// The most bytes of a name.
const NAME_LIMIT: usize = 255;
/// The most bytes of a root.
const ROOT_LIMIT: usize = 1024;

/// The name that has to stand here: 1 to 255 of letters, digits and `_ . -`.
pub(crate) fn name(value: Option<&Value>) -> Result<&str, AgentsKind>
    ensures form { IfOk result (λ name. Passes (required name_faults) (seen value.entry)) }
    ensures value { IfOk result (λ name. name.now ≡ text_of (seen value.entry)) }
    ensures fault { IfErr result (FailsBy (required name_faults) (seen value.entry)) }
{
    let name = text(value)?;
    if is_name(name.as_bytes()) {
        Ok(name)
    } else {
        Err(AgentsKind::WrongValue)
    }
}

/// The root that has to stand here: a path of at most 1,024 bytes from `/`, with no `/` at its end and no control characters.
pub(crate) fn root(value: Option<&Value>) -> Result<&str, AgentsKind>
    ensures form { IfOk result (λ root. Passes (required root_faults) (seen value.entry)) }
    ensures value { IfOk result (λ root. root.now ≡ text_of (seen value.entry)) }
    ensures fault { IfErr result (FailsBy (required root_faults) (seen value.entry)) }
{
    let root = text(value)?;
    if is_root(root.as_bytes()) {
        Ok(root)
    } else {
        Err(AgentsKind::WrongValue)
    }
}

/// The `looks` of the file: a whole number from 1 to 1,000,000, and 100,000 where there is none.
pub(crate) fn looks(value: Option<&Value>) -> Result<u32, AgentsKind>
    ensures form { IfOk result (λ looks. Passes (optional (number_faults 1 1000000)) (seen value.entry)) }
    ensures value { IfOk result (λ looks. looks ≡ number_or 100000 (seen value.entry)) }
    ensures fault { IfErr result (FailsBy (optional (number_faults 1 1000000)) (seen value.entry)) }
{
    match value {
        Some(value) => count(value, MOST_LOOKS),
        None => Ok(USUAL_LOOKS),
    }
}

/// The `executors` of an agent, which have to stand here: a whole number from 1 to 64.
pub(crate) fn executors(value: Option<&Value>) -> Result<u32, AgentsKind>
    ensures form { IfOk result (λ executors. Passes (required (number_faults 1 64)) (seen value.entry)) }
    ensures value { IfOk result (λ executors. executors ≡ number_or 0 (seen value.entry)) }
    ensures fault { IfErr result (FailsBy (required (number_faults 1 64)) (seen value.entry)) }
{
    match value {
        Some(value) => count(value, MOST_EXECUTORS),
        None => Err(AgentsKind::Missing),
    }
}

/// The whole number from 1 up to `most` that has to stand here.
fn count(value: &Value, most: u32) -> Result<u32, AgentsKind>
    ensures form { IfOk result (λ _. (path : List ℕ) → number_faults 1 most path (view value.now) ≡ []) }
    ensures value { IfOk result (λ n. view value.now ≡ number (unsigned n)) }
    ensures fault { IfErr result (λ kind. (path : List ℕ) → number_faults 1 most path (view value.now) ≡ fault path kind ∷ []) }
{
    match value.as_u64() {
        Some(n) if 1 <= n && n <= u64::from(most) => Ok(n as u32),
        Some(_) => Err(AgentsKind::WrongValue),
        None if value.is_i64() => Err(AgentsKind::WrongValue),
        None => Err(AgentsKind::WrongType),
    }
}

/// The text that has to stand here.
fn text(value: Option<&Value>) -> Result<&str, AgentsKind>
    ensures value { IfOk result (λ text. seen value.entry ≡ Some (string text.now)) }
    ensures fault { IfErr result (IsNoText (seen value.entry)) }
{
    let value = value.ok_or(AgentsKind::Missing)?;
    value.as_str().ok_or(AgentsKind::WrongType)
}

/// Whether these bytes are a name.
fn is_name(bytes: &[u8]) -> bool
    ensures { result ≡ is_a_name bytes.now }
{
    !bytes.is_empty() && bytes.len() <= NAME_LIMIT && are_name_bytes(bytes)
}

/// Whether a name may have each of these bytes.
fn are_name_bytes(bytes: &[u8]) -> bool
    ensures { result ≡ list_all is_one_of_a_name bytes.now }
{
    bytes.iter().all(|byte| is_name_byte(*byte))
}

/// Whether a name may have this byte.
fn is_name_byte(byte: u8) -> bool
    ensures { result ≡ is_one_of_a_name byte }
{
    matches!(byte, b'a'..=b'z' | b'A'..=b'Z' | b'0'..=b'9' | b'_' | b'.' | b'-')
}

/// Whether these bytes are a root.
fn is_root(bytes: &[u8]) -> bool
    ensures { result ≡ is_a_root bytes.now }
{
    begins_with_slash(bytes)
        && !ends_with_slash(bytes)
        && bytes.len() <= ROOT_LIMIT
        && !has_control(bytes)
}

/// Whether the first of these bytes is `/`.
fn begins_with_slash(bytes: &[u8]) -> bool
    ensures { result ≡ is_a_slash (first_of bytes.now) }
{
    is_slash(bytes.first())
}

/// Whether the last of these bytes is `/`.
fn ends_with_slash(bytes: &[u8]) -> bool
    ensures { result ≡ is_a_slash (last_or None bytes.now) }
{
    is_slash(bytes.last())
}

/// Whether this is a byte, and `/`.
fn is_slash(byte: Option<&u8>) -> bool
    ensures { result ≡ is_a_slash (option_copied byte.entry) }
{
    matches!(byte, Some(b'/'))
}

/// Whether these bytes, which are UTF-8, have one of Unicode's control characters: U+0000 to U+001F and U+007F to U+009F.
fn has_control(bytes: &[u8]) -> bool
    ensures { result ≡ has_control_byte bytes.now }
{
    for (at, byte) in bytes.iter().enumerate() {
        if is_control(*byte, bytes.get(at + 1)) {
            return true;
        }
    }
    false
}

/// Whether a control character begins with this byte, where `next` is the byte behind it.
fn is_control(byte: u8, next: Option<&u8>) -> bool
    ensures { (rest : List ℕ) → option_copied next.entry ≡ slice_get rest 0 → result ≡ begins_control byte rest }
{
    match byte {
        0..=31 | 127 => true,
        0xC2 => next.is_some_and(|next| *next < 0xA0),
        _ => false,
    }
}
