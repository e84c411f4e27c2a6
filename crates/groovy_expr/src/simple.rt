ghost use Rattle.std.specs.Prelude.{◌≡◌, ◌<◌, ◌+◌, true, length, MatchBool};
ghost use Rattle.model_syntax.specs.declared.word.Word.TheVariants as word;
ghost use Rattle.model_syntax.specs.Stream.{SeesWord};
ghost use Rattle.model_syntax.specs.Lookahead.{is_call};
ghost use Rattle.groovy_expr.specs.Answers.{kinds};
ghost use Rattle.groovy_expr.specs.Readers.{ReadsSimple, ReadsWhole};
ghost use Rattle.groovy_expr.specs.Statements.{SeesTyped, is_open};
ghost use Rattle.groovy_expr.specs.Stops.{stops_simple};

use crate::calls::read_arguments;
use crate::closure::{declared_at, place_at};
use crate::ranks::read_expr;
use crate::reading::{is_assign, is_call, is_name, name_at, peek, sees, sees_word};
use crate::refusal::Refusal;
use crate::target::{is_update, read_update, to_target};
use model_syntax::{Expr, Sign, Stmt, Token, TokenKind, Word};
use std::alloc::Global;

/// Whether a type, a name and `=` stand here.
fn is_typed(tokens: &[Token], at: usize) -> bool
    ensures { MatchBool result (SeesTyped (kinds tokens.now) at) (SeesTyped (kinds tokens.now) at → ⊥) }
{
    is_name(tokens, at) && is_name(tokens, at + 1) && is_assign(tokens, at + 1 + 1)
}

/// Whether a statement may end here.
fn ends_simple(tokens: &[Token], at: usize) -> bool
    ensures { result ≡ stops_simple (kinds tokens.now at) }
{
    matches!(
        peek(tokens, at),
        None | Some(
            TokenKind::Newline
                | TokenKind::Sign(Sign::Semicolon | Sign::BraceClose | Sign::ParenClose)
                | TokenKind::Word(Word::Else)
        )
    )
}

/// An expression where it stands alone: `f a` is a call there.
#[cycle(parser)]
pub fn read_whole(alloc: Global, tokens: &[Token], at: usize) -> Result<(Expr, usize), Refusal>
    ensures { ReadsWhole tokens.now at result }
{
    if is_call(tokens, at) {
        return read_command(alloc, tokens, at);
    }
    if is_typed(tokens, at) {
        return Err(Refusal::Fault(at + 1 + 1));
    }
    read_expr(alloc, tokens, at)
}

/// A call without parentheses.
#[cycle(parser)]
fn read_command(alloc: Global, tokens: &[Token], at: usize) -> Result<(Expr, usize), Refusal>
    requires { is_call (kinds tokens.now at) (kinds tokens.now (at + 1)) (kinds tokens.now (at + 1 + 1)) ≡ true }
    ensures { ReadsWhole tokens.now at result }
{
    let Some(name) = name_at(tokens, at) else {
        return Err(Refusal::Fault(at));
    };
    let name = name.clone()?;
    let (arguments, end) = read_arguments(alloc, tokens, at + 1)?;
    Ok((Expr::Call(name, arguments), end))
}

/// A statement without a block of its own.
#[cycle(parser)]
pub fn read_simple(alloc: Global, tokens: &[Token], at: usize) -> Result<(Stmt, usize), Refusal>
    ensures { ReadsSimple tokens.now at result }
{
    if sees_word(tokens, at, Word::Def) {
        return read_def(alloc, tokens, at);
    }
    if sees_word(tokens, at, Word::Return) {
        return read_return(alloc, tokens, at);
    }
    if sees_word(tokens, at, Word::Break) {
        return Ok((Stmt::Break(place_at(tokens, at)), at + 1));
    }
    if sees_word(tokens, at, Word::Continue) {
        return Ok((Stmt::Continue(place_at(tokens, at)), at + 1));
    }
    if sees_word(tokens, at, Word::Throw) {
        return read_throw(alloc, tokens, at);
    }
    read_other(alloc, tokens, at)
}

/// `def`, a name, and its value where there is one.
#[cycle(parser)]
fn read_def(alloc: Global, tokens: &[Token], at: usize) -> Result<(Stmt, usize), Refusal>
    requires seen { SeesWord (kinds tokens.now) at word.Def }
    requires within { at < length tokens.now }
    ensures { ReadsSimple tokens.now at result }
{
    let Some(name) = declared_at(tokens, at + 1)? else {
        return Err(Refusal::Fault(at + 1));
    };
    let behind = at + 1 + 1;
    if !sees(tokens, behind, Sign::Assign) {
        return Ok((Stmt::Declare(name, None), behind));
    }
    let (value, end) = read_whole(alloc, tokens, behind + 1)?;
    Ok((Stmt::Declare(name, Some(value)), end))
}

/// A type, a name, `=` and its value.
#[cycle(parser)]
fn read_typed(alloc: Global, tokens: &[Token], at: usize) -> Result<(Stmt, usize), Refusal>
    requires { SeesTyped (kinds tokens.now) at }
    ensures { ReadsSimple tokens.now at result }
{
    let Some(name) = declared_at(tokens, at + 1)? else {
        return Err(Refusal::Fault(at + 1));
    };
    let (value, end) = read_whole(alloc, tokens, at + 1 + 1 + 1)?;
    Ok((Stmt::Declare(name, Some(value)), end))
}

/// `return`, and its value where there is one.
#[cycle(parser)]
fn read_return(alloc: Global, tokens: &[Token], at: usize) -> Result<(Stmt, usize), Refusal>
    requires seen { SeesWord (kinds tokens.now) at word.Return }
    requires within { at < length tokens.now }
    ensures { ReadsSimple tokens.now at result }
{
    if ends_simple(tokens, at + 1) {
        return Ok((Stmt::Return(None), at + 1));
    }
    let (value, end) = read_whole(alloc, tokens, at + 1)?;
    Ok((Stmt::Return(Some(value)), end))
}

/// `throw` and its value.
#[cycle(parser)]
fn read_throw(alloc: Global, tokens: &[Token], at: usize) -> Result<(Stmt, usize), Refusal>
    requires seen { SeesWord (kinds tokens.now) at word.Throw }
    requires within { at < length tokens.now }
    ensures { ReadsSimple tokens.now at result }
{
    let (value, end) = read_expr(alloc, tokens, at + 1)?;
    Ok((Stmt::Throw(value), end))
}

/// A statement that begins with none of these words.
#[cycle(parser)]
fn read_other(alloc: Global, tokens: &[Token], at: usize) -> Result<(Stmt, usize), Refusal>
    requires { is_open (kinds tokens.now at) ≡ true }
    ensures { ReadsSimple tokens.now at result }
{
    if sees(tokens, at, Sign::BraceOpen) {
        return Err(Refusal::Fault(at));
    }
    if is_typed(tokens, at) {
        return read_typed(alloc, tokens, at);
    }
    if is_call(tokens, at) {
        let (call, end) = read_command(alloc, tokens, at)?;
        return Ok((Stmt::Evaluate(call), end));
    }
    let (value, end) = read_expr(alloc, tokens, at)?;
    if !is_update(tokens, end) {
        return Ok((Stmt::Evaluate(value), end));
    }
    let Some(target) = to_target(value) else {
        return Err(Refusal::Fault(end));
    };
    let (assignment, end) = read_update(alloc, tokens, end, target)?;
    Ok((Stmt::Assign(assignment), end))
}
