//! The names behind a `$` in a text.
ghost use Rattle.std.specs.Prelude.{◌≡◌, ◌+◌, ◌<◌, ◌≤◌, ◌++◌, [], ◌∷◌, length, true, MatchBool, IfOk};
ghost use Rattle.model_syntax.specs.declared.token.TokenKind.TheVariants.{PathOpen};
ghost use Rattle.model_syntax.specs.Source.{byte_at};
ghost use Rattle.model_syntax.specs.Places.{place_at};
ghost use Rattle.model_syntax.specs.Spelling.{is_letter};
ghost use Rattle.model_syntax.specs.Reading.{token};
ghost use Rattle.groovy_lex.specs.Paths.{IsPath, IsOn};

use crate::names::{letter_at, name_at};
use crate::place::later_place;
use crate::source::is_at;
use model_syntax::{Place, Sign, Token, TokenKind, Tokens};
use std::alloc::{AllocError, Global};

/// Whether a path goes on at the place: a dot and a letter stand there.
fn goes_on(src: &[u8], at: usize) -> bool
    requires { at ≤ length src.now }
    ensures { MatchBool result (IsOn (byte_at src.now) at × (at + 1 < length src.now)) (IsOn (byte_at src.now) at → ⊥) }
{
    is_at(src, at, b'.') && letter_at(src, at + 1)
}

/// The names from a place on, with dots between them, up to where none goes on. Gives the place behind them.
fn path_names(
    alloc: Global,
    src: &[u8],
    from: usize,
    place: Place,
    tokens: &mut Tokens,
) -> Result<usize, AllocError>
    requires inside { from < length src.now }
    requires letter { is_letter (byte_at src.now from) ≡ true }
    requires place { place ≡ place_at (byte_at src.now) from }
    ensures path { IfOk result (λ end. IsPath (byte_at src.now) (length src.now) from tokens.old tokens.new end) }
{
    let mut at = from;
    let mut place = place;
    'names: loop {
        let (kind, end) = name_at(alloc, src, at)?;
        tokens.push(Token {
            kind,
            start: at,
            end,
            place,
        })?;
        if !goes_on(src, end) {
            return Ok(end);
        }
        place = later_place(src, at, place, end);
        tokens.push(Token {
            kind: TokenKind::Sign(Sign::Dot),
            start: end,
            end: end + 1,
            place,
        })?;
        place = later_place(src, end, place, end + 1);
        at = end + 1;
    }
}

/// A `$` and the names behind it. Gives the place behind them. `AllocError` only for want of memory.
pub(crate) fn path_step(
    alloc: Global,
    src: &[u8],
    at: usize,
    place: Place,
    tokens: &mut Tokens,
) -> Result<usize, AllocError>
    requires inside { at + 1 < length src.now }
    requires letter { is_letter (byte_at src.now (at + 1)) ≡ true }
    requires place { place ≡ place_at (byte_at src.now) at }
    ensures path { IfOk result (λ end. IsPath (byte_at src.now) (length src.now) (at + 1) (tokens.old ++ token (byte_at src.now) PathOpen at (at + 1) ∷ []) tokens.new end) }
{
    tokens.push(Token {
        kind: TokenKind::PathOpen,
        start: at,
        end: at + 1,
        place,
    })?;
    let behind = later_place(src, at, place, at + 1);
    path_names(alloc, src, at + 1, behind, tokens)
}
