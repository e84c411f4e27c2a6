//! The methods of texts, one function each. Positions and lengths count characters, so each method that has one goes
//! once over the bytes.

ghost use Rattle.std.specs.Prelude.{◌≡◌, ◌+◌, ◌∷◌, ◌<◌, ◌^◌, ℕ, [], List, IfOk, is_some, length, pos};
ghost use Rattle.std.specs.Str.{str_to_ascii_lowercase, str_to_ascii_uppercase};
ghost use Rattle.method_names.specs.Names.{seen as table_method};
ghost use Rattle.model_values.specs.Cells.{new_text};
ghost use Rattle.model_values.specs.Characters.{characters};
ghost use Rattle.model_values.specs.Limits.{product_limits};
ghost use Rattle.model_values.specs.Searching.{begins_with, ends_with, found_from, int_of, trimmed};
ghost use Rattle.model_values.specs.TextMethods.{cells_from, count_of, flag_of, is_empty_text, lines, new_texts, place_or_minus_one, replaced, substring, text_method, tokens, whole_or_throw, with_number, with_text};
ghost use Rattle.model_values.specs.Cells.{Gives};
ghost use Rattle.model_values.specs.declared.value.Value.TheVariants.{Int as Whole};
ghost use Rattle.text_methods.specs.Reads.{IsListOf, Reads, ReadsAlways, ReadsAt, ReadsMethod};
ghost use Rattle.value_view.specs.Seen.{seen};

use crate::numbers::whole_number;
use crate::parts::{parts_of, with_plain_ends};
use crate::search::{begins_with, ends_with, place_of};
use crate::trim::trimmed;
use crate::values::{flag, found, whole};
use method_names::Method;
use model_text::{Text, Texts};
use model_values::{LimitKind, Value, Values};
use std::alloc::{AllocError, Global};
use value_ops::{Effect, MAX_CELLS, bad_argument, no_number, outside};
use value_view::{Kind, OpRefusal, character_count, character_range};

/// The characters at which `tokenize()` cuts: space, tab, LF, CR and form feed (Java).
const BLANKS: &[u8] = b" \t\n\r\x0c";

/// A method without arguments, where a new cell would have the number `first`.
pub(crate) fn without_arguments(
    alloc: Global,
    first: u32,
    text: &[u8],
    method: Method,
) -> Result<Option<Effect>, OpRefusal>
    requires { length text.now < 2 ^ 31 }
    ensures { ReadsMethod first (λ h. text_method product_limits h text.now (table_method method) []) result }
{
    match method {
        Method::Size | Method::Length => Ok(Some(whole(size(text)))),
        Method::IsEmpty => Ok(Some(flag(text.is_empty()))),
        Method::Trim => found(new_text(alloc, trimmed(text))),
        Method::ToUpperCase => found(upper_case(alloc, text)),
        Method::ToLowerCase => found(lower_case(alloc, text)),
        Method::Tokenize => found(tokens(alloc, first, text, BLANKS)),
        Method::ReadLines => found(lines(alloc, first, text)),
        Method::ToInteger => found(to_integer(alloc, text)),
        _ => Ok(None),
    }
}

/// A method with one argument, where a new cell would have the number `first`.
pub(crate) fn with_one_argument(
    alloc: Global,
    first: u32,
    text: &[u8],
    method: Method,
    argument: &Kind<'_>,
) -> Result<Option<Effect>, OpRefusal>
    requires { length text.now < 2 ^ 31 }
    ensures { ReadsMethod first (λ h. text_method product_limits h text.now (table_method method) (seen argument.now ∷ [])) result }
{
    match method {
        Method::Contains => found(contains(alloc, text, argument)),
        Method::StartsWith => found(starts_with(alloc, text, argument)),
        Method::EndsWith => found(text_ends_with(alloc, text, argument)),
        Method::IndexOf => found(index_of(alloc, text, argument)),
        Method::Substring => found(substring_from(alloc, text, argument)),
        Method::Tokenize => found(tokenize(alloc, first, text, argument)),
        _ => Ok(None),
    }
}

/// A method with two arguments.
pub(crate) fn with_two_arguments(
    alloc: Global,
    text: &[u8],
    method: Method,
    argument: &Kind<'_>,
    second: &Kind<'_>,
) -> Result<Option<Effect>, OpRefusal>
    requires { length text.now < 2 ^ 31 }
    ensures { ReadsAlways (λ h. text_method product_limits h text.now (table_method method) (seen argument.now ∷ seen second.now ∷ [])) result }
{
    match method {
        Method::Replace => found(replace(alloc, text, argument, second)),
        Method::Substring => found(substring_between(alloc, text, argument, second)),
        _ => Ok(None),
    }
}

fn new_text(alloc: Global, text: &[u8]) -> Result<Effect, OpRefusal>
    ensures { Reads (λ h. new_text product_limits h text.now) result }
{
    Ok(Effect::NewText(Text::from_slice(alloc, text)?))
}

fn upper_case(alloc: Global, text: &[u8]) -> Result<Effect, OpRefusal>
    ensures { Reads (λ h. new_text product_limits h (str_to_ascii_uppercase text.now)) result }
{
    let mut bytes = text.to_vec(alloc)?;
    bytes.as_mut_slice().make_ascii_uppercase();
    Ok(Effect::NewText(Text::from_vec(bytes)))
}

fn lower_case(alloc: Global, text: &[u8]) -> Result<Effect, OpRefusal>
    ensures { Reads (λ h. new_text product_limits h (str_to_ascii_lowercase text.now)) result }
{
    let mut bytes = text.to_vec(alloc)?;
    bytes.as_mut_slice().make_ascii_lowercase();
    Ok(Effect::NewText(Text::from_vec(bytes)))
}

fn contains(alloc: Global, text: &[u8], part: &Kind<'_>) -> Result<Effect, OpRefusal>
    ensures { Reads (λ h. with_text product_limits h (seen part.now) (λ t. flag_of product_limits h (is_some (found_from 0 text.now t)))) result }
{
    match part {
        Kind::Text(part) => Ok(flag(place_of(text, part.as_slice()).is_some())),
        _ => Ok(bad_argument(alloc)?),
    }
}

fn starts_with(alloc: Global, text: &[u8], part: &Kind<'_>) -> Result<Effect, OpRefusal>
    ensures { Reads (λ h. with_text product_limits h (seen part.now) (λ t. flag_of product_limits h (begins_with text.now t))) result }
{
    match part {
        Kind::Text(part) => Ok(flag(begins_with(text, part.as_slice()))),
        _ => Ok(bad_argument(alloc)?),
    }
}

fn text_ends_with(alloc: Global, text: &[u8], part: &Kind<'_>) -> Result<Effect, OpRefusal>
    ensures { Reads (λ h. with_text product_limits h (seen part.now) (λ t. flag_of product_limits h (ends_with text.now t))) result }
{
    match part {
        Kind::Text(part) => Ok(flag(ends_with(text, part.as_slice()))),
        _ => Ok(bad_argument(alloc)?),
    }
}

/// The place of a text in another, or -1.
fn index_of(alloc: Global, text: &[u8], part: &Kind<'_>) -> Result<Effect, OpRefusal>
    requires { length text.now < 2 ^ 31 }
    ensures { Reads (λ h. with_text product_limits h (seen part.now) (λ t. Gives h (Whole (place_or_minus_one (found_from 0 text.now t))))) result }
{
    match part {
        Kind::Text(part) => Ok(whole(place_or_minus_one(text, part.as_slice()))),
        _ => Ok(bad_argument(alloc)?),
    }
}

fn place_or_minus_one(text: &[u8], part: &[u8]) -> i32
    requires { length text.now < 2 ^ 31 }
    ensures { result ≡ place_or_minus_one (found_from 0 text.now part.now) }
{
    match place_of(text, part) {
        Some(place) => place as i32,
        None => -1,
    }
}

/// A text with another in place of each place of a third; the empty text has no place (this product's own).
fn replace(alloc: Global, text: &[u8], old: &Kind<'_>, new: &Kind<'_>) -> Result<Effect, OpRefusal>
    ensures { Reads (λ h. with_text product_limits h (seen old.now) (λ a. with_text product_limits h (seen new.now) (λ b. replaced product_limits h text.now a b))) result }
{
    match (old, new) {
        (Kind::Text(old), Kind::Text(new)) if !old.is_empty() => {
            let text = crate::search::replaced(alloc, text, old.as_slice(), new.as_slice())?;
            Ok(Effect::NewText(text))
        }
        _ => Ok(bad_argument(alloc)?),
    }
}

/// How many characters a text has.
#[tactic(auto, using(crate::proofs::PartLemmas::length_characters))]
fn size(text: &[u8]) -> i32
    requires { length text.now < 2 ^ 31 }
    ensures { result ≡ pos (length (characters text.now)) }
{
    character_count(text) as i32
}

/// The characters from a position on.
fn substring_from(alloc: Global, text: &[u8], from: &Kind<'_>) -> Result<Effect, OpRefusal>
    requires { length text.now < 2 ^ 31 }
    ensures { Reads (λ h. with_number product_limits h (seen from.now) (λ i. substring product_limits h text.now (length (characters text.now)) i (pos (length (characters text.now))))) result }
{
    match from {
        Kind::Number(from) => substring(alloc, text, *from, size(text)),
        _ => Ok(bad_argument(alloc)?),
    }
}

/// The characters from one position up to another.
fn substring_between(
    alloc: Global,
    text: &[u8],
    from: &Kind<'_>,
    to: &Kind<'_>,
) -> Result<Effect, OpRefusal>
    requires { length text.now < 2 ^ 31 }
    ensures { Reads (λ h. with_number product_limits h (seen from.now) (λ i. with_number product_limits h (seen to.now) (λ j. substring product_limits h text.now (length (characters text.now)) i j))) result }
{
    match (from, to) {
        (Kind::Number(from), Kind::Number(to)) => substring(alloc, text, *from, *to),
        _ => Ok(bad_argument(alloc)?),
    }
}

/// The characters from one position up to another. The first position from which on one is outside is the one that the
/// message names (this product's own).
#[tactic(auto, using(crate::proofs::PartLemmas::length_characters))]
fn substring(alloc: Global, text: &[u8], from: i32, to: i32) -> Result<Effect, OpRefusal>
    requires { length text.now < 2 ^ 31 }
    ensures { Reads (λ h. substring product_limits h text.now (length (characters text.now)) from to) result }
{
    let count = character_count(text);
    let size = count as i32;
    if from < 0 || from > size {
        return Ok(outside(alloc, from, count)?);
    }
    if to < from || to > size {
        return Ok(outside(alloc, to, count)?);
    }
    new_text(alloc, character_range(text, from as usize, to as usize))
}

fn tokenize(alloc: Global, first: u32, text: &[u8], cuts: &Kind<'_>) -> Result<Effect, OpRefusal>
    ensures { ReadsAt first (λ h. with_text product_limits h (seen cuts.now) (λ t. new_texts product_limits h (tokens t text.now))) result }
{
    match cuts {
        Kind::Text(cuts) => tokens(alloc, first, text, cuts.as_slice()),
        _ => Ok(bad_argument(alloc)?),
    }
}

/// The parts between the characters of a text; no part is empty.
fn tokens(alloc: Global, first: u32, text: &[u8], cuts: &[u8]) -> Result<Effect, OpRefusal>
    ensures { ReadsAt first (λ h. new_texts product_limits h (tokens cuts.now text.now)) result }
{
    list_of(alloc, first, parts_of(alloc, text, cuts, false)?)
}

/// The lines of a text, without their ends; the last line needs none (Java).
fn lines(alloc: Global, first: u32, text: &[u8]) -> Result<Effect, OpRefusal>
    ensures { ReadsAt first (λ h. new_texts product_limits h (lines text.now)) result }
{
    let plain = with_plain_ends(alloc, text)?;
    list_of(
        alloc,
        first,
        parts_of(alloc, plain.as_slice(), b"\n", true)?,
    )
}

/// The whole number that the text spells without its blanks (Java).
fn to_integer(alloc: Global, text: &[u8]) -> Result<Effect, OpRefusal>
    ensures { Reads (λ h. whole_or_throw product_limits h (trimmed text.now) (int_of (trimmed text.now))) result }
{
    let text = trimmed(text);
    match whole_number(text) {
        Some(number) => Ok(whole(number)),
        None => Ok(no_number(alloc, text)?),
    }
}

/// A new list of new texts, where the first of them would have the number `first`. There is none where a list may not
/// have so many entries.
fn list_of(alloc: Global, first: u32, texts: Option<Texts>) -> Result<Effect, OpRefusal>
    ensures { (ts : List (List ℕ)) → IsListOf ts texts → ReadsAt first (λ h. new_texts product_limits h ts) result }
{
    let Some(texts) = texts else {
        return Err(OpRefusal::Limit(LimitKind::CollectionSize));
    };
    if first as usize + texts.len() >= MAX_CELLS {
        return Err(OpRefusal::Limit(LimitKind::Cells));
    }
    let values = cells_from(alloc, first, texts.as_slice())?;
    Ok(Effect::NewListOf(texts, values))
}

/// The values that name cells in a row, one for each text.
fn cells_from(alloc: Global, first: u32, texts: &[Text]) -> Result<Values, AllocError>
    requires { first + length texts.now < 2 ^ 32 }
    ensures { IfOk result (λ values. values ≡ cells_from first texts.now) }
{
    let mut values = Vec::with_capacity(alloc, texts.len())?;
    for at in 0..texts.len() {
        values.push(Value::Cell(first + at as u32))?;
    }
    Ok(Values::from_vec(values))
}
