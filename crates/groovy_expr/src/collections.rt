ghost use Rattle.std.specs.Prelude.{◌≡◌, ◌+◌, ◌<◌, length, ℤ, MatchOption, Some, Bool, true, false};
ghost use Rattle.model_syntax.specs.declared.sign.Sign.TheVariants as sign;
ghost use Rattle.model_syntax.specs.declared.token.TokenKind.TheVariants as kind;
ghost use Rattle.model_syntax.specs.Stream.{Sees};
ghost use Rattle.groovy_expr.specs.Answers.{kinds};
ghost use Rattle.groovy_expr.specs.Brackets.{IsKey, begins_keyed};
ghost use Rattle.groovy_expr.specs.Readers.{ReadsEntry, ReadsPrimary, ReadsListRest, ReadsMapRest};

use crate::calls::read_named;
use crate::gstring::{opens_text, read_gstring};
use crate::ranks::read_expr;
use crate::reading::{is_colon, peek, sees};
use crate::refusal::Refusal;
use crate::trees::prepended;
use model_syntax::{Entry, Expr, Sign, Token, TokenKind};
use sqlite_items::Items;
use std::alloc::Global;

/// A list or a map.
#[cycle(parser)]
pub fn read_bracket(alloc: Global, tokens: &[Token], at: usize) -> Result<(Expr, usize), Refusal>
    requires seen { Sees (kinds tokens.now) at sign.BracketOpen }
    requires within { at < length tokens.now }
    ensures { ReadsPrimary tokens.now at result }
{
    let inside = at + 1;
    if sees(tokens, inside, Sign::BracketClose) {
        return Ok((Expr::List(Items::new(alloc)), inside + 1));
    }
    if sees(tokens, inside, Sign::Colon) {
        return read_no_map(alloc, tokens, at);
    }
    if begins_keyed(tokens, inside) {
        return read_map(alloc, tokens, at);
    }
    read_elements(alloc, tokens, at)
}

/// Whether an entry begins here whose key is a name, a text or a number.
fn begins_keyed(tokens: &[Token], at: usize) -> bool
    ensures { result ≡ begins_keyed (kinds tokens.now at) (kinds tokens.now (at + 1)) }
{
    match peek(tokens, at) {
        Some(TokenKind::Name(_) | TokenKind::Text(_) | TokenKind::Int(_)) => {
            is_colon(tokens, at + 1)
        }
        _ => false,
    }
}

/// The empty map.
fn read_no_map(alloc: Global, tokens: &[Token], at: usize) -> Result<(Expr, usize), Refusal>
    requires open { Sees (kinds tokens.now) at sign.BracketOpen }
    requires colon { Sees (kinds tokens.now) (at + 1) sign.Colon }
    requires within { at + 1 < length tokens.now }
    ensures { ReadsPrimary tokens.now at result }
{
    if !sees(tokens, at + 1 + 1, Sign::BracketClose) {
        return Err(Refusal::Fault(at + 1 + 1));
    }
    Ok((Expr::Map(Items::new(alloc)), at + 1 + 1 + 1))
}

/// A map whose first key is a name, a text or a number.
#[cycle(parser)]
fn read_map(alloc: Global, tokens: &[Token], at: usize) -> Result<(Expr, usize), Refusal>
    requires seen { Sees (kinds tokens.now) at sign.BracketOpen }
    requires keyed { begins_keyed (kinds tokens.now (at + 1)) (kinds tokens.now (at + 1 + 1)) ≡ true }
    requires within { at < length tokens.now }
    ensures { ReadsPrimary tokens.now at result }
{
    let (first, next) = read_entry(alloc, tokens, at + 1)?;
    let (others, end) = read_map_rest(alloc, tokens, next)?;
    Ok((Expr::Map(prepended(alloc, first, others)?), end))
}

/// A list, or a map whose first key is an expression.
#[cycle(parser)]
fn read_elements(alloc: Global, tokens: &[Token], at: usize) -> Result<(Expr, usize), Refusal>
    requires seen { Sees (kinds tokens.now) at sign.BracketOpen }
    requires some { Sees (kinds tokens.now) (at + 1) sign.BracketClose → ⊥ }
    requires no_colon { Sees (kinds tokens.now) (at + 1) sign.Colon → ⊥ }
    requires not_keyed { begins_keyed (kinds tokens.now (at + 1)) (kinds tokens.now (at + 1 + 1)) ≡ false }
    requires within { at < length tokens.now }
    ensures { ReadsPrimary tokens.now at result }
{
    let (first, next) = read_expr(alloc, tokens, at + 1)?;
    if !sees(tokens, next, Sign::Colon) {
        let (others, end) = read_list_rest(alloc, tokens, next)?;
        return Ok((Expr::List(prepended(alloc, first, others)?), end));
    }
    let Some(key) = key_of(first) else {
        return Err(Refusal::Fault(next));
    };
    let (value, middle) = read_expr(alloc, tokens, next + 1)?;
    let (others, end) = read_map_rest(alloc, tokens, middle)?;
    let entry = Entry::Computed(key, value);
    Ok((Expr::Map(prepended(alloc, entry, others)?), end))
}

/// The key that this is where `:` stands behind it.
fn key_of(expr: Expr) -> Option<Expr>
    ensures { MatchOption result ((key : Expr) → IsKey expr key → ⊥) (λ key. IsKey expr key) }
{
    match expr {
        Expr::GString(parts) => Some(Expr::GString(parts)),
        Expr::Group(inner) => Some(inner.into_inner()),
        _ => None,
    }
}

/// The further elements of a list, and its `]`.
#[cycle(parser)]
fn read_list_rest(
    alloc: Global,
    tokens: &[Token],
    at: usize,
) -> Result<(Items<Expr>, usize), Refusal>
    ensures { ReadsListRest tokens.now at result }
{
    let mut exprs = Items::new(alloc);
    let mut end = at;
    'elements: while sees(tokens, end, Sign::Comma) {
        if sees(tokens, end + 1, Sign::BracketClose) {
            return Ok((exprs, end + 1 + 1));
        }
        let (expr, next) = read_expr(alloc, tokens, end + 1)?;
        exprs.push(expr)?;
        end = next;
    }
    if !sees(tokens, end, Sign::BracketClose) {
        return Err(Refusal::Fault(end));
    }
    Ok((exprs, end + 1))
}

/// The further entries of a map, and its `]`.
#[cycle(parser)]
fn read_map_rest(
    alloc: Global,
    tokens: &[Token],
    at: usize,
) -> Result<(Items<Entry>, usize), Refusal>
    ensures { ReadsMapRest tokens.now at result }
{
    let mut entries = Items::new(alloc);
    let mut end = at;
    'entries: while sees(tokens, end, Sign::Comma) {
        if sees(tokens, end + 1, Sign::BracketClose) {
            return Ok((entries, end + 1 + 1));
        }
        let (entry, next) = read_entry(alloc, tokens, end + 1)?;
        entries.push(entry)?;
        end = next;
    }
    if !sees(tokens, end, Sign::BracketClose) {
        return Err(Refusal::Fault(end));
    }
    Ok((entries, end + 1))
}

/// A key and its value.
#[cycle(parser)]
fn read_entry(alloc: Global, tokens: &[Token], at: usize) -> Result<(Entry, usize), Refusal>
    ensures { ReadsEntry tokens.now at result }
{
    if sees(tokens, at, Sign::ParenOpen) {
        return read_computed(alloc, tokens, at);
    }
    if opens_text(tokens, at) {
        return read_text_entry(alloc, tokens, at);
    }
    if let Some(number) = number_at(tokens, at) {
        return read_numbered(alloc, tokens, at, number);
    }
    read_named(alloc, tokens, at)
}

/// The number that stands here.
fn number_at(tokens: &[Token], at: usize) -> Option<i32>
    ensures { MatchOption result ((v : ℤ) → kinds tokens.now at ≡ Some (kind.Int v) → ⊥) (λ v. (kinds tokens.now at ≡ Some (kind.Int v)) × (at < length tokens.now)) }
{
    match peek(tokens, at) {
        Some(TokenKind::Int(number)) => Some(*number),
        _ => None,
    }
}

/// An entry whose key is a number.
#[cycle(parser)]
fn read_numbered(
    alloc: Global,
    tokens: &[Token],
    at: usize,
    number: i32,
) -> Result<(Entry, usize), Refusal>
    requires seen { kinds tokens.now at ≡ Some (kind.Int number) }
    requires within { at < length tokens.now }
    ensures { ReadsEntry tokens.now at result }
{
    if !sees(tokens, at + 1, Sign::Colon) {
        return Err(Refusal::Fault(at + 1));
    }
    let (value, end) = read_expr(alloc, tokens, at + 1 + 1)?;
    Ok((Entry::Numbered(number, value), end))
}

/// An entry whose key is a text with expressions.
#[cycle(parser)]
fn read_text_entry(alloc: Global, tokens: &[Token], at: usize) -> Result<(Entry, usize), Refusal>
    requires seen { kinds tokens.now at ≡ Some kind.GStringOpen }
    ensures { ReadsEntry tokens.now at result }
{
    let (parts, colon) = read_gstring(alloc, tokens, at)?;
    if !sees(tokens, colon, Sign::Colon) {
        return Err(Refusal::Fault(colon));
    }
    let (value, end) = read_expr(alloc, tokens, colon + 1)?;
    Ok((Entry::Computed(Expr::GString(parts), value), end))
}

/// An entry whose key is an expression in parentheses.
#[cycle(parser)]
fn read_computed(alloc: Global, tokens: &[Token], at: usize) -> Result<(Entry, usize), Refusal>
    requires seen { Sees (kinds tokens.now) at sign.ParenOpen }
    requires within { at < length tokens.now }
    ensures { ReadsEntry tokens.now at result }
{
    let (key, close) = read_expr(alloc, tokens, at + 1)?;
    if !sees(tokens, close, Sign::ParenClose) {
        return Err(Refusal::Fault(close));
    }
    if !sees(tokens, close + 1, Sign::Colon) {
        return Err(Refusal::Fault(close + 1));
    }
    let (value, end) = read_expr(alloc, tokens, close + 1 + 1)?;
    Ok((Entry::Computed(key, value), end))
}
