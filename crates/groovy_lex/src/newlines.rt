//! Which newlines are tokens.
ghost use Rattle.std.specs.Prelude.{◌≡◌, ◌&&◌, not, filter, false, IfOk};
ghost use Rattle.model_syntax.specs.Newlines.{sign_goes_on, goes_on_after, goes_on_with, is_newline, kept};
ghost use Rattle.model_syntax.specs.Tokens.{begins_before};
ghost use Rattle.groovy_lex.specs.Layout.{may_end, Lays, LaysBefore};

use model_syntax::{Sign, Token, TokenKind, Tokens, Word};
use std::alloc::{AllocError, Global};

/// Whether a statement goes on in the next line behind this sign.
fn sign_goes_on(sign: Sign) -> bool
    ensures { result ≡ sign_goes_on sign }
{
    match sign {
        Sign::Comma | Sign::Colon | Sign::Question | Sign::Elvis | Sign::Range => true,
        Sign::Assign | Sign::PlusAssign | Sign::MinusAssign => true,
        Sign::TimesAssign | Sign::ModAssign | Sign::Arrow => true,
        Sign::BraceOpen | Sign::Semicolon | Sign::Or | Sign::And => true,
        Sign::Equal | Sign::NotEqual | Sign::Less | Sign::LessEqual => true,
        Sign::Greater | Sign::GreaterEqual | Sign::Plus | Sign::Minus => true,
        Sign::Times | Sign::Mod => true,
        _ => false,
    }
}

/// Whether a statement goes on in the next line behind this token.
fn goes_on_after(kind: &TokenKind) -> bool
    ensures { result ≡ goes_on_after kind.now }
{
    match kind {
        TokenKind::Sign(sign) => sign_goes_on(*sign),
        _ => false,
    }
}

/// Whether a statement of the line before goes on with this token.
fn goes_on_with(kind: &TokenKind) -> bool
    ensures { result ≡ goes_on_with kind.now }
{
    match kind {
        TokenKind::Sign(Sign::Dot | Sign::SafeDot) => true,
        TokenKind::Word(Word::Else | Word::Catch | Word::Finally) => true,
        _ => false,
    }
}

fn is_newline(kind: &TokenKind) -> bool
    ensures { result ≡ is_newline kind.now }
{
    match kind {
        TokenKind::Newline => true,
        _ => false,
    }
}

/// Whether a part of a script may end behind this token.
fn ends_part(token: &Token) -> bool
    ensures { result ≡ (not (is_newline token.now.kind) && not (goes_on_after token.now.kind)) }
{
    !is_newline(&token.kind) && !goes_on_after(&token.kind)
}

/// Whether the last of these tokens ends a part of a script.
fn may_end(tokens: &[Token]) -> bool
    ensures { result ≡ may_end tokens.now }
{
    if tokens.is_empty() {
        return false;
    }
    ends_part(&tokens[tokens.len() - 1])
}

/// Whether a newline is a token, by the tokens before it and whether a statement goes on with what follows.
fn newline_stands(before: &Tokens, goes_on: bool) -> bool
    ensures { result ≡ (may_end before.now && not goes_on) }
{
    may_end(before.as_slice()) && !goes_on
}

/// Puts a token behind those that follow it in the script, unless it is a newline that is none. Gives whether a statement
/// goes on with what follows from there on.
fn lay(
    before: &Tokens,
    token: Token,
    goes_on: bool,
    laid: &mut Vec<Token>,
) -> Result<bool, AllocError>
    ensures { IfOk result (λ goes_on_here. Lays before.now token goes_on laid.old.items laid.new.items goes_on_here) }
{
    if !is_newline(&token.kind) {
        let goes_on_here = goes_on_with(&token.kind);
        laid.push(token)?;
        return Ok(goes_on_here);
    }
    if !newline_stands(before, goes_on) {
        return Ok(goes_on);
    }
    laid.push(token)?;
    Ok(goes_on)
}

/// The tokens without the newlines that are none. It goes backward, so that each token is looked at once.
pub(crate) fn kept_tokens(alloc: Global, tokens: Tokens) -> Result<Tokens, AllocError>
    ensures { IfOk result (λ laid. laid ≡ kept false tokens) }
{
    let mut rest = tokens;
    let mut laid = Vec::new(alloc);
    let mut goes_on = false;
    'tokens: while let Some(token) = rest.pop() {
        goes_on = lay(&rest, token, goes_on, &mut laid)?;
    }
    laid.reverse();
    Ok(Tokens::from_vec(laid))
}

/// Puts a token behind those that follow it in the script, if it begins before a place.
fn lay_before(token: Token, at: usize, before: &mut Vec<Token>) -> Result<(), AllocError>
    ensures { IfOk result (λ _. LaysBefore token at before.old.items before.new.items) }
{
    if token.start >= at {
        return Ok(());
    }
    before.push(token)?;
    Ok(())
}

/// The tokens that begin before a place.
pub(crate) fn tokens_before(alloc: Global, tokens: Tokens, at: usize) -> Result<Tokens, AllocError>
    ensures { IfOk result (λ before. before ≡ filter (begins_before at) tokens) }
{
    let mut rest = tokens;
    let mut before = Vec::new(alloc);
    'tokens: while let Some(token) = rest.pop() {
        lay_before(token, at, &mut before)?;
    }
    before.reverse();
    Ok(Tokens::from_vec(before))
}
