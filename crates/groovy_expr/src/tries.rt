ghost use Rattle.std.specs.Prelude.{◌≡◌, ◌<◌, length, MatchOption};
ghost use Rattle.model_syntax.specs.declared.word.Word.TheVariants as word;
ghost use Rattle.model_syntax.specs.Stream.{SeesWord};
ghost use Rattle.groovy_expr.specs.Answers.{kinds};
ghost use Rattle.groovy_expr.specs.Readers.{ReadsCatch, ReadsFinally, ReadsStmt};
ghost use Rattle.groovy_expr.specs.Statements.{ReadsCatches, ReadsCaught, caught_text};

use crate::block::{read_block, skip_newline};
use crate::closure::declared_at;
use crate::reading::{sees, sees_word};
use crate::refusal::Refusal;
use model_syntax::{Catch, Caught, Declared, Sign, Stmt, Token, Word};
use model_text::Text;
use sqlite_items::Items;
use std::alloc::Global;

/// `try` with its block, catches and `finally`.
#[cycle(parser)]
pub fn read_try(alloc: Global, tokens: &[Token], at: usize) -> Result<(Stmt, usize), Refusal>
    requires seen { SeesWord (kinds tokens.now) at word.Try }
    requires within { at < length tokens.now }
    ensures { ReadsStmt tokens.now at result }
{
    let (body, next) = read_block(alloc, tokens, skip_newline(tokens, at + 1))?;
    let (catches, end) = read_catches(alloc, tokens, next)?;
    if sees_word(tokens, end, Word::Finally) {
        let (last, end) = read_finally(alloc, tokens, end)?;
        return Ok((Stmt::Try(body, catches, Some(last)), end));
    }
    if catches.is_empty() {
        return Err(Refusal::Fault(end));
    }
    Ok((Stmt::Try(body, catches, None), end))
}

/// The catches that stand here.
#[cycle(parser)]
fn read_catches(
    alloc: Global,
    tokens: &[Token],
    at: usize,
) -> Result<(Items<Catch>, usize), Refusal>
    ensures { ReadsCatches tokens.now at result }
{
    let mut catches = Items::new(alloc);
    let mut end = at;
    'catches: while sees_word(tokens, end, Word::Catch) {
        let (catch, next) = read_catch(alloc, tokens, end)?;
        catches.push(catch)?;
        end = next;
    }
    Ok((catches, end))
}

/// A catch.
#[cycle(parser)]
fn read_catch(alloc: Global, tokens: &[Token], at: usize) -> Result<(Catch, usize), Refusal>
    ensures { ReadsCatch tokens.now at result }
{
    if !sees_word(tokens, at, Word::Catch) {
        return Err(Refusal::Fault(at));
    }
    let ((caught, name), end) = read_caught(tokens, at + 1)?;
    let (body, last) = read_block(alloc, tokens, skip_newline(tokens, end))?;
    Ok((Catch { caught, name, body }, last))
}

/// Which throwables this class is.
fn caught_class(name: &Text) -> Option<Caught>
    ensures { MatchOption result ((c : Caught) → name.now ≡ caught_text c → ⊥) (λ c. name.now ≡ caught_text c) }
{
    if name.as_slice() == b"Exception".as_slice() {
        return Some(Caught::Exceptions);
    }
    if name.as_slice() == b"Throwable".as_slice() {
        return Some(Caught::Throwables);
    }
    None
}

/// The head of a catch: which throwables, and the name that they get.
fn read_caught(tokens: &[Token], at: usize) -> Result<((Caught, Declared), usize), Refusal>
    ensures { ReadsCaught tokens.now at result }
{
    if !sees(tokens, at, Sign::ParenOpen) {
        return Err(Refusal::Fault(at));
    }
    let Some(first) = declared_at(tokens, at + 1)? else {
        return Err(Refusal::Fault(at + 1));
    };
    let behind = at + 1 + 1;
    if sees(tokens, behind, Sign::ParenClose) {
        return Ok(((Caught::Exceptions, first), behind + 1));
    }
    let Some(caught) = caught_class(&first.name) else {
        return Err(Refusal::Fault(behind));
    };
    let Some(name) = declared_at(tokens, behind)? else {
        return Err(Refusal::Fault(behind));
    };
    if !sees(tokens, behind + 1, Sign::ParenClose) {
        return Err(Refusal::Fault(behind + 1));
    }
    Ok(((caught, name), behind + 1 + 1))
}

/// `finally` with its block.
#[cycle(parser)]
fn read_finally(alloc: Global, tokens: &[Token], at: usize) -> Result<(Items<Stmt>, usize), Refusal>
    ensures { ReadsFinally tokens.now at result }
{
    if !sees_word(tokens, at, Word::Finally) {
        return Err(Refusal::Fault(at));
    }
    read_block(alloc, tokens, skip_newline(tokens, at + 1))
}
