ghost use Rattle.std.specs.Prelude.{◌≡◌, ◌<◌, ◌≤◌, ◌⊎◌, length, MatchBool, true, false};
ghost use Rattle.model_syntax.specs.Grammar.{MaySeparate};
ghost use Rattle.groovy_expr.specs.Answers.{kinds};
ghost use Rattle.groovy_expr.specs.Readers.{ReadsBlock, ReadsBody, ReadsStmt, ReadsStmts};
ghost use Rattle.groovy_expr.specs.Statements.{BreaksTo, SeparatesTo, is_separator};
ghost use Rattle.groovy_expr.specs.Stops.{stops_stmts};

use crate::branches::read_if;
use crate::loops::{read_for, read_while};
use crate::reading::{peek, sees, sees_word};
use crate::refusal::Refusal;
use crate::simple::read_simple;
use crate::tries::read_try;
use model_syntax::{Sign, Stmt, Token, TokenKind, Word};
use sqlite_items::Items;
use std::alloc::Global;

/// The place behind the newline that stands here, or this place.
pub fn skip_newline(tokens: &[Token], at: usize) -> usize
    ensures { BreaksTo (kinds tokens.now) at result }
{
    match peek(tokens, at) {
        Some(TokenKind::Newline) => at + 1,
        _ => at,
    }
}

/// Whether a newline or `;` stands here.
fn separates(tokens: &[Token], at: usize) -> bool
    ensures same { result ≡ is_separator (kinds tokens.now at) }
    ensures within { result ≡ true → at < length tokens.now }
{
    matches!(
        peek(tokens, at),
        Some(TokenKind::Newline | TokenKind::Sign(Sign::Semicolon))
    )
}

/// The place behind the separators that stand here.
pub fn skip_separators(tokens: &[Token], at: usize) -> usize
    ensures { SeparatesTo (kinds tokens.now) at result }
{
    let mut end = at;
    while separates(tokens, end) {
        end += 1;
    }
    end
}

/// Whether the statements of a block end here.
fn ends_block(tokens: &[Token], at: usize) -> bool
    ensures { result ≡ stops_stmts (kinds tokens.now at) }
{
    matches!(peek(tokens, at), Some(TokenKind::Sign(Sign::BraceClose)))
}

/// Whether separators stand between these places, and a statement behind them.
fn goes_on(tokens: &[Token], end: usize, from: usize) -> bool
    ensures { MatchBool result ((from ≡ end → ⊥) × (stops_stmts (kinds tokens.now from) ≡ false)) ((from ≡ end) ⊎ (stops_stmts (kinds tokens.now from) ≡ true)) }
{
    if from == end {
        return false;
    }
    !ends_block(tokens, from)
}

/// A block, or one statement without a block of its own.
#[cycle(parser)]
pub fn read_body(
    alloc: Global,
    tokens: &[Token],
    at: usize,
) -> Result<(Items<Stmt>, usize), Refusal>
    ensures { ReadsBody tokens.now at result }
{
    if sees(tokens, at, Sign::BraceOpen) {
        return read_block(alloc, tokens, at);
    }
    let (only, end) = read_simple(alloc, tokens, at)?;
    let mut all = Items::new(alloc);
    all.push(only)?;
    Ok((all, end))
}

/// Statements in braces.
#[cycle(parser)]
pub fn read_block(
    alloc: Global,
    tokens: &[Token],
    at: usize,
) -> Result<(Items<Stmt>, usize), Refusal>
    ensures { ReadsBlock tokens.now at result }
{
    if !sees(tokens, at, Sign::BraceOpen) {
        return Err(Refusal::Fault(at));
    }
    let (all, end) = read_stmts(alloc, tokens, at + 1)?;
    if !sees(tokens, end, Sign::BraceClose) {
        return Err(Refusal::Fault(end));
    }
    Ok((all, end + 1))
}

/// Statements with separators between them.
#[cycle(parser)]
pub fn read_stmts(
    alloc: Global,
    tokens: &[Token],
    at: usize,
) -> Result<(Items<Stmt>, usize), Refusal>
    ensures { ReadsStmts tokens.now at result }
{
    let start = skip_separators(tokens, at);
    let mut all = Items::new(alloc);
    if ends_block(tokens, start) {
        return Ok((all, start));
    }
    let (first, next) = read_stmt(alloc, tokens, start)?;
    all.push(first)?;
    let mut end = next;
    let mut from = skip_separators(tokens, end);
    'rest: while goes_on(tokens, end, from) {
        let (stmt, next) = read_stmt(alloc, tokens, from)?;
        all.push(stmt)?;
        end = next;
        from = skip_separators(tokens, end);
    }
    Ok((all, from))
}

/// A statement.
#[cycle(parser)]
pub fn read_stmt(alloc: Global, tokens: &[Token], at: usize) -> Result<(Stmt, usize), Refusal>
    ensures { ReadsStmt tokens.now at result }
{
    if sees_word(tokens, at, Word::If) {
        return read_if(alloc, tokens, at);
    }
    if sees_word(tokens, at, Word::While) {
        return read_while(alloc, tokens, at);
    }
    if sees_word(tokens, at, Word::For) {
        return read_for(alloc, tokens, at);
    }
    if sees_word(tokens, at, Word::Try) {
        return read_try(alloc, tokens, at);
    }
    read_simple(alloc, tokens, at)
}
