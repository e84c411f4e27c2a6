//! What an answer line says.

ghost use Rattle.std.specs.Prelude.{◌≡◌, List, ℕ, Bool, MatchOption};
ghost use Rattle.agent_worker.specs.AnswerLine.{Answers, NamesInput, blank_in};

use std::str;

/// What an answer line says: `proceed ID by NAME` or `abort ID by NAME`.
#[derive(Clone, Copy, Debug, PartialEq, Eq)]
pub struct AnswerLine<'a> {
    /// Whether the input is to proceed; else it is aborted.
    pub proceed: bool,
    /// The id of the input: not empty, without a space or a tab.
    pub id: &'a [u8],
    /// Who answers: not empty, in UTF-8.
    pub name: &'a [u8],
}

// The place of the first blank, or the end.
fn blank_at(rest: &[u8]) -> usize
    ensures place { result ≡ blank_in rest.now }
{
    let mut at = 0;
    while at < rest.len() {
        let byte = rest[at];
        if byte == b' ' || byte == b'\t' {
            return at;
        }
        at += 1;
    }
    at
}

// What stands behind the word.
fn named_input<'a>(proceed: bool, rest: &'a [u8]) -> Option<AnswerLine<'a>>
    ensures reads { MatchOption result ((id name : List ℕ) → ¬ (NamesInput rest.now id name))
        (λ line. (line.proceed ≡ proceed) × NamesInput rest.now line.id.now line.name.now) }
{
    let at = blank_at(rest);
    let (id, more) = rest.split_at(at);
    if id.is_empty() {
        return None;
    }
    let Some(name) = more.strip_prefix(b" by ".as_slice()) else {
        return None;
    };
    if name.is_empty() {
        return None;
    }
    match str::from_utf8(name) {
        Ok(_) => Some(AnswerLine { proceed, id, name }),
        Err(_) => None,
    }
}

/// Reads an answer line, without what ended it. `None` comes exactly where it is not of the form.
pub fn answer_of<'a>(line: &'a [u8]) -> Option<AnswerLine<'a>>
    ensures reads { MatchOption result ((proceed : Bool) (id name : List ℕ) → ¬ (Answers line.now proceed id name))
        (λ answer. Answers line.now answer.proceed answer.id.now answer.name.now) }
{
    match line.strip_prefix(b"proceed ".as_slice()) {
        Some(rest) => named_input(true, rest),
        None => match line.strip_prefix(b"abort ".as_slice()) {
            Some(rest) => named_input(false, rest),
            None => None,
        },
    }
}
