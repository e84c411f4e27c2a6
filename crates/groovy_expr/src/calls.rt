ghost use Rattle.std.specs.Prelude.{◌≡◌, ◌<◌, length, MatchOption, List, ℕ};
ghost use Rattle.model_syntax.specs.declared.sign.Sign.TheVariants as sign;
ghost use Rattle.model_syntax.specs.Stream.{Sees};
ghost use Rattle.groovy_expr.specs.Answers.{kinds};
ghost use Rattle.groovy_expr.specs.Firsts.{SeesKey};
ghost use Rattle.groovy_expr.specs.Readers.{ReadsArguments, ReadsCall, ReadsExprs, ReadsMayClose, ReadsNamed, ReadsNamedList};

use crate::closure::read_closure;
use crate::ranks::read_expr;
use crate::reading::{is_named, peek, sees};
use crate::refusal::Refusal;
use model_syntax::{Arguments, Entry, Expr, Sign, Token, TokenKind};
use model_text::Text;
use sqlite_items::Items;
use std::alloc::Global;

/// The arguments of a call, in parentheses, as a closure, or both.
#[cycle(parser)]
pub fn read_call(alloc: Global, tokens: &[Token], at: usize) -> Result<(Arguments, usize), Refusal>
    ensures { ReadsCall tokens.now at result }
{
    if sees(tokens, at, Sign::ParenOpen) {
        return read_parenthesised(alloc, tokens, at);
    }
    let (closure, end) = read_closure(alloc, tokens, at)?;
    let mut ordered = Items::new(alloc);
    ordered.push(closure)?;
    let named = Items::new(alloc);
    Ok((Arguments { named, ordered }, end))
}

/// Arguments in parentheses, and the closure behind them.
#[cycle(parser)]
fn read_parenthesised(
    alloc: Global,
    tokens: &[Token],
    at: usize,
) -> Result<(Arguments, usize), Refusal>
    requires seen { Sees (kinds tokens.now) at sign.ParenOpen }
    requires within { at < length tokens.now }
    ensures { ReadsCall tokens.now at result }
{
    let inside = at + 1;
    if sees(tokens, inside, Sign::ParenClose) {
        let (ordered, end) = read_may_close(alloc, tokens, inside + 1)?;
        let named = Items::new(alloc);
        return Ok((Arguments { named, ordered }, end));
    }
    let (arguments, close) = read_arguments(alloc, tokens, inside)?;
    if !sees(tokens, close, Sign::ParenClose) {
        return Err(Refusal::Fault(close));
    }
    let (closures, end) = read_may_close(alloc, tokens, close + 1)?;
    let Arguments { named, mut ordered } = arguments;
    ordered.append(closures)?;
    Ok((Arguments { named, ordered }, end))
}

/// The closure behind `)`, if one stands there.
#[cycle(parser)]
fn read_may_close(
    alloc: Global,
    tokens: &[Token],
    at: usize,
) -> Result<(Items<Expr>, usize), Refusal>
    ensures { ReadsMayClose tokens.now at result }
{
    let mut closures = Items::new(alloc);
    if !sees(tokens, at, Sign::BraceOpen) {
        return Ok((closures, at));
    }
    let (closure, end) = read_closure(alloc, tokens, at)?;
    closures.push(closure)?;
    Ok((closures, end))
}

/// Arguments: those with names, or those in order.
#[cycle(parser)]
pub fn read_arguments(
    alloc: Global,
    tokens: &[Token],
    at: usize,
) -> Result<(Arguments, usize), Refusal>
    ensures { ReadsArguments tokens.now at result }
{
    if is_named(tokens, at) {
        let (named, end) = read_named_list(alloc, tokens, at)?;
        let ordered = Items::new(alloc);
        return Ok((Arguments { named, ordered }, end));
    }
    let (ordered, end) = read_exprs(alloc, tokens, at)?;
    let named = Items::new(alloc);
    Ok((Arguments { named, ordered }, end))
}

/// Expressions with `,` between them.
#[cycle(parser)]
fn read_exprs(alloc: Global, tokens: &[Token], at: usize) -> Result<(Items<Expr>, usize), Refusal>
    ensures { ReadsExprs tokens.now at result }
{
    let mut exprs = Items::new(alloc);
    let mut from = at;
    'exprs: loop {
        let (expr, end) = read_expr(alloc, tokens, from)?;
        exprs.push(expr)?;
        if !sees(tokens, end, Sign::Comma) {
            return Ok((exprs, end));
        }
        from = end + 1;
    }
}

/// Arguments with names.
#[cycle(parser)]
fn read_named_list(
    alloc: Global,
    tokens: &[Token],
    at: usize,
) -> Result<(Items<Entry>, usize), Refusal>
    ensures { ReadsNamedList tokens.now at result }
{
    let mut entries = Items::new(alloc);
    let mut from = at;
    'entries: loop {
        let (entry, end) = read_named(alloc, tokens, from)?;
        entries.push(entry)?;
        if !sees(tokens, end, Sign::Comma) {
            return Ok((entries, end));
        }
        from = end + 1;
    }
}

/// The name or text that stands here.
fn key_at(tokens: &[Token], at: usize) -> Option<&Text>
    ensures { MatchOption result ((key : List ℕ) → SeesKey (kinds tokens.now) at key → ⊥) (λ key. SeesKey (kinds tokens.now) at key.now × (at < length tokens.now)) }
{
    match peek(tokens, at) {
        Some(TokenKind::Name(name)) => Some(name),
        Some(TokenKind::Text(text)) => Some(text),
        _ => None,
    }
}

/// A name or a text, `:` and a value.
#[cycle(parser)]
pub fn read_named(alloc: Global, tokens: &[Token], at: usize) -> Result<(Entry, usize), Refusal>
    ensures { ReadsNamed tokens.now at result }
{
    let Some(key) = key_at(tokens, at) else {
        return Err(Refusal::Fault(at));
    };
    let key = key.clone()?;
    if !sees(tokens, at + 1, Sign::Colon) {
        return Err(Refusal::Fault(at + 1));
    }
    let (value, end) = read_expr(alloc, tokens, at + 1 + 1)?;
    Ok((Entry::Named(key, value), end))
}
