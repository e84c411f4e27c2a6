ghost use Rattle.std.specs.Prelude.{◌≡◌, ◌≤◌, ◌<◌, ◌+◌, true, length, List, ℕ, MatchOption, IfOk, MatchBool};
ghost use Rattle.model_syntax.specs.declared.sign.Sign.TheVariants as sign;
ghost use Rattle.model_syntax.specs.Stream.{Sees, SeesName, declared, places_of};
ghost use Rattle.model_syntax.specs.Lookahead.{has_heads, is_name};
ghost use Rattle.groovy_expr.specs.Answers.{kinds};
ghost use Rattle.groovy_expr.specs.Readers.{ReadsClosure, ReadsHeads, ReadsNames};

use crate::block::read_stmts;
use crate::reading::{has_heads, is_name, name_at, sees};
use crate::refusal::Refusal;
use model_syntax::{Declared, Expr, Place, Sign, Token};
use sqlite_items::Items;
use std::alloc::{AllocError, Global};

/// A closure.
#[cycle(parser)]
pub fn read_closure(alloc: Global, tokens: &[Token], at: usize) -> Result<(Expr, usize), Refusal>
    ensures { ReadsClosure tokens.now at result }
{
    if !sees(tokens, at, Sign::BraceOpen) {
        return Err(Refusal::Fault(at));
    }
    if has_heads(tokens, at + 1) {
        return read_headed(alloc, tokens, at);
    }
    let (body, end) = read_stmts(alloc, tokens, at + 1)?;
    if !sees(tokens, end, Sign::BraceClose) {
        return Err(Refusal::Fault(end));
    }
    Ok((Expr::Closure(None, body), end + 1))
}

/// A closure with names for its parameters.
#[cycle(parser)]
fn read_headed(alloc: Global, tokens: &[Token], at: usize) -> Result<(Expr, usize), Refusal>
    requires seen { Sees (kinds tokens.now) at sign.BraceOpen }
    requires headed { has_heads (kinds tokens.now (at + 1)) (kinds tokens.now (at + 1 + 1)) (kinds tokens.now (at + 1 + 1 + 1)) ≡ true }
    requires within { at < length tokens.now }
    ensures { ReadsClosure tokens.now at result }
{
    let (parameters, start) = read_heads(alloc, tokens, at + 1)?;
    let (body, end) = read_stmts(alloc, tokens, start)?;
    if !sees(tokens, end, Sign::BraceClose) {
        return Err(Refusal::Fault(end));
    }
    Ok((Expr::Closure(Some(parameters), body), end + 1))
}

/// The names of a closure's parameters.
fn read_heads(
    alloc: Global,
    tokens: &[Token],
    at: usize,
) -> Result<(Items<Declared>, usize), Refusal>
    requires headed { has_heads (kinds tokens.now at) (kinds tokens.now (at + 1)) (kinds tokens.now (at + 1 + 1)) ≡ true }
    requires within { at < length tokens.now }
    ensures { ReadsHeads tokens.now at result }
{
    if sees(tokens, at, Sign::Arrow) {
        return Ok((Items::new(alloc), at + 1));
    }
    if is_name(tokens, at + 1) {
        return read_typed_head(alloc, tokens, at);
    }
    let (names, end) = read_names(alloc, tokens, at)?;
    if !sees(tokens, end, Sign::Arrow) {
        return Err(Refusal::Fault(end));
    }
    Ok((names, end + 1))
}

/// One name behind its type.
fn read_typed_head(
    alloc: Global,
    tokens: &[Token],
    at: usize,
) -> Result<(Items<Declared>, usize), Refusal>
    requires headed { has_heads (kinds tokens.now at) (kinds tokens.now (at + 1)) (kinds tokens.now (at + 1 + 1)) ≡ true }
    requires typed { is_name (kinds tokens.now (at + 1)) ≡ true }
    requires other { Sees (kinds tokens.now) at sign.Arrow → ⊥ }
    requires within { at < length tokens.now }
    ensures { ReadsHeads tokens.now at result }
{
    let Some(name) = declared_at(tokens, at + 1)? else {
        return Err(Refusal::Fault(at + 1));
    };
    if !sees(tokens, at + 1 + 1, Sign::Arrow) {
        return Err(Refusal::Fault(at + 1 + 1));
    }
    let mut names = Items::new(alloc);
    names.push(name)?;
    Ok((names, at + 1 + 1 + 1))
}

/// The place of the token that stands here.
pub fn place_at(tokens: &[Token], at: usize) -> Place
    requires { at < length tokens.now }
    ensures { result ≡ places_of tokens.now at }
{
    tokens[at].place
}

/// The name that stands here, as it is declared.
pub fn declared_at(tokens: &[Token], at: usize) -> Result<Option<Declared>, AllocError>
    ensures { IfOk result (λ found. MatchOption found ((n : List ℕ) → SeesName (kinds tokens.now) at n → ⊥) (λ d. (n : List ℕ) × SeesName (kinds tokens.now) at n × (d ≡ declared n (places_of tokens.now at)) × (at < length tokens.now))) }
{
    match name_at(tokens, at) {
        Some(name) => {
            let name = name.clone()?;
            let place = place_at(tokens, at);
            Ok(Some(Declared { name, place }))
        }
        None => Ok(None),
    }
}

/// Names with `,` between them.
fn read_names(
    alloc: Global,
    tokens: &[Token],
    at: usize,
) -> Result<(Items<Declared>, usize), Refusal>
    ensures { ReadsNames tokens.now at result }
{
    let mut names = Items::new(alloc);
    let mut from = at;
    'names: loop {
        let Some(name) = declared_at(tokens, from)? else {
            return Err(Refusal::Fault(from));
        };
        names.push(name)?;
        if !sees(tokens, from + 1, Sign::Comma) {
            return Ok((names, from + 1));
        }
        from = from + 1 + 1;
    }
}
