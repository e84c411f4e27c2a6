ghost use Rattle.std.specs.Prelude.{◌≡◌, ◌<◌, length, MatchOption, true};
ghost use Rattle.model_syntax.specs.Grammar.{SeesDot};
ghost use Rattle.groovy_expr.specs.Answers.{kinds};
ghost use Rattle.groovy_expr.specs.Firsts.{begins_suffix};
ghost use Rattle.groovy_expr.specs.Readers.{ReadsSuffix, ReadsSuffixes};

use crate::calls::read_call;
use crate::ranks::read_expr;
use crate::reading::{name_at, opens_call, peek, sees};
use crate::refusal::Refusal;
use model_syntax::{Access, Sign, Suffix, Token, TokenKind};
use sqlite_items::Items;
use std::alloc::Global;

/// Whether a suffix begins here.
pub fn begins_suffix(tokens: &[Token], at: usize) -> bool
    ensures value { result ≡ begins_suffix (kinds tokens.now at) }
    ensures within { result ≡ true → at < length tokens.now }
{
    matches!(
        peek(tokens, at),
        Some(TokenKind::Sign(Sign::Dot | Sign::SafeDot | Sign::BracketOpen))
    )
}

/// `.` or `?.`
fn access_at(tokens: &[Token], at: usize) -> Option<Access>
    ensures { MatchOption result ((access : Access) → SeesDot (kinds tokens.now) at access → ⊥) (λ access. SeesDot (kinds tokens.now) at access × (at < length tokens.now)) }
{
    match peek(tokens, at) {
        Some(TokenKind::Sign(Sign::Dot)) => Some(Access::Direct),
        Some(TokenKind::Sign(Sign::SafeDot)) => Some(Access::NullSafe),
        _ => None,
    }
}

/// What stands behind a primary.
#[cycle(parser)]
pub fn read_suffixes(
    alloc: Global,
    tokens: &[Token],
    at: usize,
) -> Result<(Items<Suffix>, usize), Refusal>
    ensures { ReadsSuffixes tokens.now at result }
{
    let mut suffixes = Items::new(alloc);
    let mut end = at;
    'suffixes: while begins_suffix(tokens, end) {
        let (suffix, next) = read_suffix(alloc, tokens, end)?;
        suffixes.push(suffix)?;
        end = next;
    }
    Ok((suffixes, end))
}

/// One suffix.
#[cycle(parser)]
pub fn read_suffix(alloc: Global, tokens: &[Token], at: usize) -> Result<(Suffix, usize), Refusal>
    ensures { ReadsSuffix tokens.now at result }
{
    if let Some(access) = access_at(tokens, at) {
        return read_member(alloc, tokens, at, access);
    }
    if !sees(tokens, at, Sign::BracketOpen) {
        return Err(Refusal::Fault(at));
    }
    let (index, end) = read_expr(alloc, tokens, at + 1)?;
    if !sees(tokens, end, Sign::BracketClose) {
        return Err(Refusal::Fault(end));
    }
    Ok((Suffix::Index(index), end + 1))
}

/// A name behind `.` or `?.`, and the arguments where it is a method.
#[cycle(parser)]
fn read_member(
    alloc: Global,
    tokens: &[Token],
    at: usize,
    access: Access,
) -> Result<(Suffix, usize), Refusal>
    requires seen { SeesDot (kinds tokens.now) at access }
    requires within { at < length tokens.now }
    ensures { ReadsSuffix tokens.now at result }
{
    let Some(name) = name_at(tokens, at + 1) else {
        return Err(Refusal::Fault(at + 1));
    };
    let name = name.clone()?;
    let next = at + 1 + 1;
    if !opens_call(tokens, next) {
        return Ok((Suffix::Property(access, name), next));
    }
    let (arguments, end) = read_call(alloc, tokens, next)?;
    Ok((Suffix::Method(access, name, arguments), end))
}
