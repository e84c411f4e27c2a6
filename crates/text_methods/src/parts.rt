//! The parts of a text: its tokens and its lines.

ghost use Rattle.std.specs.Prelude.{◌≡◌, ◌∷◌, ◌++◌, [], ◌<◌, ◌≤◌, true, false, length, take, drop, IfOk, MatchOption, MatchBool};
ghost use Rattle.model_values.specs.Characters.{characters};
ghost use Rattle.model_values.specs.Searching.{is_among, plain_ends};
ghost use Rattle.text_methods.specs.Parts.{cut, kept, kept_piece};
ghost use Rattle.text_methods.specs.Reads.{IsListOf};

use model_text::{Text, Texts};
use std::alloc::{AllocError, Global};
use value_ops::MAX_ENTRIES;
use value_view::character_range;

/// The parts of a text between the characters of another, from left to right. Where `keeps_empty`, the empty ones are
/// among them but for an empty last one; else none of them. `None` exactly where they are more than a list may have.
/// It takes time in proportion to the bytes of the text times those of `cuts`.
pub(crate) fn parts_of(
    alloc: Global,
    text: &[u8],
    cuts: &[u8],
    keeps_empty: bool,
) -> Result<Option<Texts>, AllocError>
    ensures { IfOk result (IsListOf (kept keeps_empty (cut cuts.now text.now))) }
{
    let mut parts = Texts::new(alloc);
    let mut rest = text;
    while let Some((start, end)) = first_cut(rest, cuts) {
        if !add(alloc, &mut parts, &rest[..start], keeps_empty)? {
            return Ok(None);
        }
        rest = &rest[end..];
    }
    if !add(alloc, &mut parts, rest, false)? {
        return Ok(None);
    }
    Ok(Some(parts))
}

/// Puts a copy of a part behind the others, unless it is empty and these are not kept; and says whether a list may
/// have so many.
fn add(alloc: Global, parts: &mut Texts, part: &[u8], keeps_empty: bool) -> Result<bool, AllocError>
    requires { length parts.old ≤ 65536 }
    ensures few { IfOk result (λ _. length parts.new ≤ 65536) }
    ensures added { IfOk result (λ added. MatchBool added (parts.new ≡ parts.old ++ kept_piece keeps_empty part.now) ((length parts.old ≡ 65536) × (kept_piece keeps_empty part.now ≡ part.now ∷ []))) }
{
    if part.is_empty() && !keeps_empty {
        return Ok(true);
    }
    if parts.len() == MAX_ENTRIES {
        return Ok(false);
    }
    parts.push(Text::from_slice(alloc, part)?)?;
    Ok(true)
}

/// Where the first character that cuts begins and ends, and `None` where none cuts.
fn first_cut(text: &[u8], cuts: &[u8]) -> Option<(usize, usize)>
    ensures pieces { MatchOption result (cut cuts.now text.now ≡ text.now ∷ []) (λ c. cut cuts.now text.now ≡ take c.0 text.now ∷ cut cuts.now (drop c.1 text.now)) }
    ensures places { MatchOption result (0 ≤ 0) (λ c. (c.0 < c.1) × (c.1 ≤ length text.now)) }
{
    let mut at = 0;
    while at < text.len() {
        let character = first_character(&text[at..]);
        if is_cut(character, cuts) {
            return Some((at, at + character.len()));
        }
        at += character.len();
    }
    None
}

/// Whether a character is one of those of a text.
fn is_cut(character: &[u8], cuts: &[u8]) -> bool
    ensures { result ≡ is_among (characters cuts.now) character.now }
{
    let mut rest = cuts;
    while !rest.is_empty() {
        let cut = first_character(rest);
        if cut == character {
            return true;
        }
        rest = &rest[cut.len()..];
    }
    false
}

/// The bytes of the first character.
fn first_character(text: &[u8]) -> &[u8]
    requires { 0 < length text.now }
    ensures first { characters text.now ≡ result.now ∷ characters (drop (length result.now) text.now) }
    ensures front { take (length result.now) text.now ≡ result.now }
    ensures within { length result.now ≤ length text.now }
    ensures some { 0 < length result.now }
{
    character_range(text, 0, 1)
}

/// A text with LF as the end of each line, in place of CR LF and of CR.
pub(crate) fn with_plain_ends(alloc: Global, text: &[u8]) -> Result<Vec<u8>, AllocError>
    ensures { IfOk result (λ plain. plain.items ≡ plain_ends false text.now) }
{
    let mut plain = Vec::with_capacity(alloc, text.len())?;
    let mut after_return = false;
    for byte in text {
        if *byte == b'\r' {
            plain.push(b'\n')?;
        } else if *byte != b'\n' || !after_return {
            plain.push(*byte)?;
        }
        after_return = *byte == b'\r';
    }
    Ok(plain)
}
