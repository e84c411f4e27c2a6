//! Functions.
ghost use Rattle.std.specs.Prelude.{◌≡◌, ◌<◌, length, MatchBool};
ghost use Rattle.model_syntax.specs.BracketDepth.{IsShallow};
ghost use Rattle.model_syntax.specs.Scripts.{SeesResult};
ghost use Rattle.groovy_expr.specs.Answers.{kinds};
ghost use Rattle.groovy_parse.specs.Readers.{IsTyped, ReadsParameter, ReadsParameters, ReadsFunction};

use groovy_expr::{
    Refusal, declared_at, is_name, name_at, place_at, read_block, sees, sees_word, skip_newline,
};
use model_syntax::{Declared, Function, Sign, Token, Word};
use sqlite_items::Items;
use std::alloc::Global;

/// A function, of which `def` or `void` stands here.
pub fn read_function(
    alloc: Global,
    tokens: &[Token],
    at: usize,
) -> Result<(Function, usize), Refusal>
    requires begun { SeesResult (kinds tokens.now) at }
    requires within { at < length tokens.now }
    requires shallow { IsShallow tokens.now }
    ensures { ReadsFunction tokens.now at result }
{
    let Some(name) = declared_at(tokens, at + 1)? else {
        return Err(Refusal::Fault(at + 1));
    };
    if !sees(tokens, at + 1 + 1, Sign::ParenOpen) {
        return Err(Refusal::Fault(at + 1 + 1));
    }
    let (parameters, end) = read_parameters(alloc, tokens, at + 1 + 1 + 1)?;
    if !sees(tokens, end, Sign::ParenClose) {
        return Err(Refusal::Fault(end));
    }
    let start = skip_newline(tokens, end + 1);
    let (body, next) = read_block(alloc, tokens, start)?;
    let place = place_at(tokens, at);
    Ok((
        Function {
            place,
            name,
            parameters,
            body,
        },
        next,
    ))
}

/// Parameters with `,` between them, up to the `)` behind them.
fn read_parameters(
    alloc: Global,
    tokens: &[Token],
    at: usize,
) -> Result<(Items<Declared>, usize), Refusal>
    ensures { ReadsParameters tokens.now at result }
{
    let mut all = Items::new(alloc);
    if sees(tokens, at, Sign::ParenClose) {
        return Ok((all, at));
    }
    let mut from = at;
    'all: loop {
        let (parameter, end) = read_parameter(tokens, from)?;
        all.push(parameter)?;
        if !sees(tokens, end, Sign::Comma) {
            return Ok((all, end));
        }
        from = end + 1;
    }
}

/// A parameter: a name, with a type before it or without.
fn read_parameter(tokens: &[Token], at: usize) -> Result<(Declared, usize), Refusal>
    ensures { ReadsParameter tokens.now at result }
{
    if is_typed(tokens, at) {
        let Some(name) = declared_at(tokens, at + 1)? else {
            return Err(Refusal::Fault(at + 1));
        };
        return Ok((name, at + 1 + 1));
    }
    let Some(name) = declared_at(tokens, at)? else {
        return Err(Refusal::Fault(at));
    };
    Ok((name, at + 1))
}

/// Whether a parameter with its type begins here.
fn is_typed(tokens: &[Token], at: usize) -> bool
    ensures { MatchBool result (IsTyped (kinds tokens.now) at × (at < length tokens.now)) (IsTyped (kinds tokens.now) at → ⊥) }
{
    if sees_word(tokens, at, Word::Def) {
        return true;
    }
    match name_at(tokens, at) {
        Some(_) => is_name(tokens, at + 1),
        None => false,
    }
}
