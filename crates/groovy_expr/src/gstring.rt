ghost use Rattle.std.specs.Prelude.{◌≡◌, ◌<◌, length, MatchBool, Some, true};
ghost use Rattle.model_syntax.specs.declared.token.TokenKind.TheVariants as kind;
ghost use Rattle.groovy_expr.specs.Answers.{kinds};
ghost use Rattle.groovy_expr.specs.Firsts.{begins_part};
ghost use Rattle.groovy_expr.specs.Readers.{ReadsDotted, ReadsGString, ReadsPart, ReadsParts};

use crate::ranks::read_expr;
use crate::reading::{name_at, peek, sees};
use crate::refusal::Refusal;
use crate::trees::suffixed;
use model_syntax::{Access, Expr, Part, Sign, Suffix, Token, TokenKind};
use sqlite_items::Items;
use std::alloc::Global;

/// Whether a text with expressions opens here.
pub fn opens_text(tokens: &[Token], at: usize) -> bool
    ensures { MatchBool result ((kinds tokens.now at ≡ Some kind.GStringOpen) × (at < length tokens.now)) (kinds tokens.now at ≡ Some kind.GStringOpen → ⊥) }
{
    matches!(peek(tokens, at), Some(TokenKind::GStringOpen))
}

/// Whether a text with expressions ends here.
fn closes_text(tokens: &[Token], at: usize) -> bool
    ensures { MatchBool result ((kinds tokens.now at ≡ Some kind.GStringClose) × (at < length tokens.now)) (kinds tokens.now at ≡ Some kind.GStringClose → ⊥) }
{
    matches!(peek(tokens, at), Some(TokenKind::GStringClose))
}

/// Whether a part of a text begins here.
fn begins_part(tokens: &[Token], at: usize) -> bool
    ensures value { result ≡ begins_part (kinds tokens.now at) }
    ensures within { result ≡ true → at < length tokens.now }
{
    matches!(
        peek(tokens, at),
        Some(TokenKind::GStringPart(_) | TokenKind::ExpressionOpen | TokenKind::PathOpen)
    )
}

/// A text with expressions in it.
#[cycle(parser)]
pub fn read_gstring(
    alloc: Global,
    tokens: &[Token],
    at: usize,
) -> Result<(Items<Part>, usize), Refusal>
    ensures { ReadsGString tokens.now at result }
{
    if !opens_text(tokens, at) {
        return Err(Refusal::Fault(at));
    }
    let (parts, end) = read_parts(alloc, tokens, at + 1)?;
    if !closes_text(tokens, end) {
        return Err(Refusal::Fault(end));
    }
    Ok((parts, end + 1))
}

/// The parts of a text.
#[cycle(parser)]
fn read_parts(alloc: Global, tokens: &[Token], at: usize) -> Result<(Items<Part>, usize), Refusal>
    ensures { ReadsParts tokens.now at result }
{
    let mut parts = Items::new(alloc);
    let mut end = at;
    'parts: while begins_part(tokens, end) {
        let (part, next) = read_part(alloc, tokens, end)?;
        parts.push(part)?;
        end = next;
    }
    Ok((parts, end))
}

/// One part of a text.
#[cycle(parser)]
fn read_part(alloc: Global, tokens: &[Token], at: usize) -> Result<(Part, usize), Refusal>
    ensures { ReadsPart tokens.now at result }
{
    let Some(kind) = peek(tokens, at) else {
        return Err(Refusal::Fault(at));
    };
    match kind {
        TokenKind::GStringPart(text) => Ok((Part::Plain(text.clone()?), at + 1)),
        TokenKind::ExpressionOpen => read_braces(alloc, tokens, at),
        TokenKind::PathOpen => read_path(alloc, tokens, at),
        _ => Err(Refusal::Fault(at)),
    }
}

/// An expression in `${` and `}`.
#[cycle(parser)]
fn read_braces(alloc: Global, tokens: &[Token], at: usize) -> Result<(Part, usize), Refusal>
    requires seen { kinds tokens.now at ≡ Some kind.ExpressionOpen }
    requires within { at < length tokens.now }
    ensures { ReadsPart tokens.now at result }
{
    let (inner, end) = read_expr(alloc, tokens, at + 1)?;
    if !sees(tokens, end, Sign::BraceClose) {
        return Err(Refusal::Fault(end));
    }
    Ok((Part::Inner(inner), end + 1))
}

/// A name behind `$`, and the names behind it.
fn read_path(alloc: Global, tokens: &[Token], at: usize) -> Result<(Part, usize), Refusal>
    requires seen { kinds tokens.now at ≡ Some kind.PathOpen }
    requires within { at < length tokens.now }
    ensures { ReadsPart tokens.now at result }
{
    let Some(name) = name_at(tokens, at + 1) else {
        return Err(Refusal::Fault(at + 1));
    };
    let name = name.clone()?;
    let (names, end) = read_dotted(alloc, tokens, at + 1 + 1)?;
    let variable = Expr::Variable(name);
    Ok((Part::Inner(suffixed(alloc, variable, names)?), end))
}

/// The names behind `$` and a name in a text.
fn read_dotted(
    alloc: Global,
    tokens: &[Token],
    at: usize,
) -> Result<(Items<Suffix>, usize), Refusal>
    ensures { ReadsDotted tokens.now at result }
{
    let mut names = Items::new(alloc);
    let mut end = at;
    'names: while sees(tokens, end, Sign::Dot) {
        let Some(name) = name_at(tokens, end + 1) else {
            return Err(Refusal::Fault(end + 1));
        };
        let name = name.clone()?;
        names.push(Suffix::Property(Access::Direct, name))?;
        end = end + 1 + 1;
    }
    Ok((names, end))
}
