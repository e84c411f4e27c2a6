//! One step of the lexer: what stands at a place, and its tokens.
ghost use Rattle.std.specs.Prelude.{◌≡◌, ◌<◌, length, IfOk};
ghost use Rattle.model_syntax.specs.Source.{byte_at};
ghost use Rattle.model_syntax.specs.Places.{place_at};
ghost use Rattle.groovy_lex.specs.Steps.{Does, IsFound};

use crate::code::code_step;
use crate::found::Found;
use crate::inside::inside_step;
use crate::open::OpenStack;
use crate::path::path_step;
use model_syntax::{FaultKind, Place, Token, Tokens};
use std::alloc::{AllocError, Global};

/// What a step of the lexer gives: the next place, or the fault with its place.
#[derive(Clone, Copy, PartialEq, Eq, Debug)]
pub(crate) enum Step {
    Goes(usize),
    Fails(FaultKind, usize),
}

/// What stands at a place, by what is innermost. What is open is then what is open behind it.
fn find(alloc: Global, src: &[u8], stack: &mut OpenStack, at: usize) -> Result<Found, AllocError>
    requires { at < length src.now }
    ensures { IfOk result (λ found. IsFound (byte_at src.now) (length src.now) stack.old stack.new at found) }
{
    match stack.text_at_top() {
        Some((form, opening)) => inside_step(alloc, src, stack, form, opening, at),
        None => code_step(alloc, src, stack, at),
    }
}

/// Reads what stands at a place: its tokens go behind the others. `AllocError` only for want of memory.
pub(crate) fn next_step(
    alloc: Global,
    src: &[u8],
    stack: &mut OpenStack,
    at: usize,
    place: Place,
    tokens: &mut Tokens,
) -> Result<Step, AllocError>
    requires inside { at < length src.now }
    requires place { place ≡ place_at (byte_at src.now) at }
    ensures does { IfOk result (λ step. Does (byte_at src.now) (length src.now) stack.old stack.new at tokens.old tokens.new step) }
{
    match find(alloc, src, stack, at)? {
        Found::Blank(end) => Ok(Step::Goes(end)),
        Found::Token(kind, end) => {
            tokens.push(Token {
                kind,
                start: at,
                end,
                place,
            })?;
            Ok(Step::Goes(end))
        }
        Found::Path => {
            let end = path_step(alloc, src, at, place, tokens)?;
            Ok(Step::Goes(end))
        }
        Found::Fails(kind, fault) => Ok(Step::Fails(kind, fault)),
    }
}
