ghost use Rattle.std.specs.Prelude.{◌≡◌, ◌<◌, ◌≤◌, ◌+◌, ℕ, length, IfOk, MatchBool, MatchOption};
ghost use Rattle.model_syntax.specs.declared.word.Word.TheVariants as word;
ghost use Rattle.model_syntax.specs.Grammar.{SeesType};
ghost use Rattle.model_syntax.specs.Stream.{SeesWord, places_of};
ghost use Rattle.groovy_expr.specs.Answers.{kinds};
ghost use Rattle.groovy_expr.specs.Readers.{ReadsInit, ReadsStmt};
ghost use Rattle.groovy_expr.specs.Statements.{BeginsDeclaration, EachHead, SeesIn, ReadsEachRest, ReadsStepsHead};

use crate::branches::{read_behind_head, read_guarded};
use crate::closure::declared_at;
use crate::ranks::read_expr;
use crate::reading::{is_name, name_at, sees, sees_word};
use crate::refusal::Refusal;
use crate::simple::read_whole;
use crate::target::read_assign;
use crate::trees::for_steps;
use model_syntax::{Arm, Declared, Init, Sign, Stmt, Token, Word};
use sqlite_items::Boxed;
use std::alloc::{AllocError, Global};

/// `while` with its test and body.
#[cycle(parser)]
pub fn read_while(alloc: Global, tokens: &[Token], at: usize) -> Result<(Stmt, usize), Refusal>
    requires seen { SeesWord (kinds tokens.now) at word.While }
    requires within { at < length tokens.now }
    ensures { ReadsStmt tokens.now at result }
{
    let (arm, end) = read_guarded(alloc, tokens, at + 1)?;
    let Arm { test, body } = arm;
    Ok((Stmt::While(test, body), end))
}

/// Whether `def` or a name stands here, as before a declared name.
fn sees_type(tokens: &[Token], at: usize) -> bool
    ensures { MatchBool result (SeesType (kinds tokens.now) at × (at < length tokens.now)) (SeesType (kinds tokens.now) at → ⊥) }
{
    if sees_word(tokens, at, Word::Def) {
        return true;
    }
    match name_at(tokens, at) {
        Some(_) => true,
        None => false,
    }
}

/// Whether `in` or `:` stands here.
fn sees_in(tokens: &[Token], at: usize) -> bool
    ensures { MatchBool result (SeesIn (kinds tokens.now) at × (at < length tokens.now)) (SeesIn (kinds tokens.now) at → ⊥) }
{
    if sees_word(tokens, at, Word::In) {
        return true;
    }
    sees(tokens, at, Sign::Colon)
}

/// The name of a loop through values that begins here, and the place of the values.
fn each_head(tokens: &[Token], at: usize) -> Result<Option<(Declared, usize)>, AllocError>
    requires { at ≤ length tokens.now + 1 }
    ensures { IfOk result (λ found. MatchOption found ((d : Declared) (v : ℕ) → EachHead (kinds tokens.now) (places_of tokens.now) d at v → ⊥) (λ z. EachHead (kinds tokens.now) (places_of tokens.now) z.0 at z.1)) }
{
    if sees_word(tokens, at + 1, Word::In) {
        return match declared_at(tokens, at)? {
            Some(name) => Ok(Some((name, at + 1 + 1))),
            None => Ok(None),
        };
    }
    if !sees_type(tokens, at) {
        return Ok(None);
    }
    if !sees_in(tokens, at + 1 + 1) {
        return Ok(None);
    }
    match declared_at(tokens, at + 1)? {
        Some(name) => Ok(Some((name, at + 1 + 1 + 1))),
        None => Ok(None),
    }
}

/// `for` with its head and body.
#[cycle(parser)]
pub fn read_for(alloc: Global, tokens: &[Token], at: usize) -> Result<(Stmt, usize), Refusal>
    requires seen { SeesWord (kinds tokens.now) at word.For }
    requires within { at < length tokens.now }
    ensures { ReadsStmt tokens.now at result }
{
    if !sees(tokens, at + 1, Sign::ParenOpen) {
        return Err(Refusal::Fault(at + 1));
    }
    match each_head(tokens, at + 1 + 1)? {
        Some((name, values)) => read_each(alloc, tokens, values, name),
        None => read_steps(alloc, tokens, at + 1 + 1),
    }
}

/// The values and the body of a loop through values.
#[cycle(parser)]
fn read_each(
    alloc: Global,
    tokens: &[Token],
    at: usize,
    name: Declared,
) -> Result<(Stmt, usize), Refusal>
    ensures { ReadsEachRest tokens.now name at result }
{
    let (values, end) = read_expr(alloc, tokens, at)?;
    let (body, last) = read_behind_head(alloc, tokens, end)?;
    Ok((Stmt::ForEach(name, values, body), last))
}

/// The head and the body of a loop with steps.
#[cycle(parser)]
fn read_steps(alloc: Global, tokens: &[Token], at: usize) -> Result<(Stmt, usize), Refusal>
    ensures { ReadsStepsHead tokens.now at result }
{
    let (first, end) = read_init(alloc, tokens, at)?;
    if !sees(tokens, end, Sign::Semicolon) {
        return Err(Refusal::Fault(end));
    }
    let (test, end) = read_expr(alloc, tokens, end + 1)?;
    if !sees(tokens, end, Sign::Semicolon) {
        return Err(Refusal::Fault(end));
    }
    let (step, end) = read_assign(alloc, tokens, end + 1)?;
    let (body, last) = read_behind_head(alloc, tokens, end)?;
    let step = Boxed::new(alloc, step)?;
    Ok((for_steps(alloc, first, test, step, body)?, last))
}

/// Whether `def`, or a type and a name, stand here.
fn begins_declaration(tokens: &[Token], at: usize) -> bool
    ensures { MatchBool result (BeginsDeclaration (kinds tokens.now) at × (at < length tokens.now)) (BeginsDeclaration (kinds tokens.now) at → ⊥) }
{
    if sees_word(tokens, at, Word::Def) {
        return true;
    }
    match name_at(tokens, at) {
        Some(_) => is_name(tokens, at + 1),
        None => false,
    }
}

/// The first part of a loop with steps.
#[cycle(parser)]
fn read_init(alloc: Global, tokens: &[Token], at: usize) -> Result<(Init, usize), Refusal>
    ensures { ReadsInit tokens.now at result }
{
    if !begins_declaration(tokens, at) {
        let (assignment, end) = read_assign(alloc, tokens, at)?;
        return Ok((Init::Assign(assignment), end));
    }
    let Some(name) = declared_at(tokens, at + 1)? else {
        return Err(Refusal::Fault(at + 1));
    };
    if !sees(tokens, at + 1 + 1, Sign::Assign) {
        return Err(Refusal::Fault(at + 1 + 1));
    }
    let (value, end) = read_whole(alloc, tokens, at + 1 + 1 + 1)?;
    Ok((Init::Declare(name, value), end))
}
