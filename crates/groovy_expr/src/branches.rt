ghost use Rattle.std.specs.Prelude.{◌<◌, ◌+◌, length, MatchBool};
ghost use Rattle.model_syntax.specs.declared.word.Word.TheVariants as word;
ghost use Rattle.model_syntax.specs.Stream.{SeesWord};
ghost use Rattle.groovy_expr.specs.Answers.{kinds};
ghost use Rattle.groovy_expr.specs.Readers.{ReadsArm, ReadsStmt};
ghost use Rattle.groovy_expr.specs.Statements.{ReadsBehindHead, ReadsGuarded, SeesElseIf};

use crate::block::{read_body, skip_newline};
use crate::ranks::read_expr;
use crate::reading::{sees, sees_word};
use crate::refusal::Refusal;
use model_syntax::{Arm, Sign, Stmt, Token, Word};
use sqlite_items::Items;
use std::alloc::Global;

/// Whether `else` and `if` stand here.
fn sees_else_if(tokens: &[Token], at: usize) -> bool
    ensures { MatchBool result (SeesElseIf (kinds tokens.now) at × (at + 1 < length tokens.now)) (SeesElseIf (kinds tokens.now) at → ⊥) }
{
    if !sees_word(tokens, at, Word::Else) {
        return false;
    }
    sees_word(tokens, at + 1, Word::If)
}

/// `if` with its arms and `else`.
#[cycle(parser)]
pub fn read_if(alloc: Global, tokens: &[Token], at: usize) -> Result<(Stmt, usize), Refusal>
    requires { SeesWord (kinds tokens.now) at word.If }
    ensures { ReadsStmt tokens.now at result }
{
    let (first, next) = read_arm(alloc, tokens, at)?;
    let mut arms = Items::new(alloc);
    arms.push(first)?;
    let mut end = next;
    'arms: while sees_else_if(tokens, end) {
        let (arm, next) = read_arm(alloc, tokens, end + 1)?;
        arms.push(arm)?;
        end = next;
    }
    if !sees_word(tokens, end, Word::Else) {
        return Ok((Stmt::If(arms, None), end));
    }
    let (other, last) = read_body(alloc, tokens, skip_newline(tokens, end + 1))?;
    Ok((Stmt::If(arms, Some(other)), last))
}

/// `if`, its test and what is done.
#[cycle(parser)]
fn read_arm(alloc: Global, tokens: &[Token], at: usize) -> Result<(Arm, usize), Refusal>
    ensures { ReadsArm tokens.now at result }
{
    if !sees_word(tokens, at, Word::If) {
        return Err(Refusal::Fault(at));
    }
    read_guarded(alloc, tokens, at + 1)
}

/// A test in parentheses, and what is done.
#[cycle(parser)]
pub fn read_guarded(alloc: Global, tokens: &[Token], at: usize) -> Result<(Arm, usize), Refusal>
    ensures { ReadsGuarded tokens.now at result }
{
    if !sees(tokens, at, Sign::ParenOpen) {
        return Err(Refusal::Fault(at));
    }
    let (test, end) = read_expr(alloc, tokens, at + 1)?;
    let (body, last) = read_behind_head(alloc, tokens, end)?;
    Ok((Arm { test, body }, last))
}

/// The end of a head, and the body behind it.
#[cycle(parser)]
pub fn read_behind_head(
    alloc: Global,
    tokens: &[Token],
    at: usize,
) -> Result<(Items<Stmt>, usize), Refusal>
    ensures { ReadsBehindHead tokens.now at result }
{
    if !sees(tokens, at, Sign::ParenClose) {
        return Err(Refusal::Fault(at));
    }
    read_body(alloc, tokens, skip_newline(tokens, at + 1))
}
