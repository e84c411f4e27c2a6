//! Reading a script from its start, up to its end or its lexical fault.
ghost use Rattle.std.specs.Prelude.{◌≡◌, IfOk, MatchOption, None};
ghost use Rattle.model_syntax.specs.OpenBrackets.{innermost_text};
ghost use Rattle.groovy_lex.specs.Raws.{IsRead, IsEndFault};

use crate::open::OpenStack;
use crate::place::{later_place, mark_end, place_of};
use crate::step::{Step, next_step};
use model_syntax::{FaultKind, Tokens};
use std::alloc::{AllocError, Global};

/// A lexical fault: its kind, and its place in bytes from the start.
#[derive(Clone, Copy, PartialEq, Eq, Debug)]
pub(crate) struct LexicalFault {
    pub kind: FaultKind,
    pub at: usize,
}

/// What was read: the tokens, with every newline that may be one, and the fault where reading stopped at one.
#[derive(Drop)]
pub(crate) struct RawTokens {
    pub tokens: Tokens,
    pub fault: Option<LexicalFault>,
}

/// What is wrong at the script's end: a text is open there.
fn end_fault(stack: &OpenStack) -> Option<LexicalFault>
    ensures { MatchOption result (innermost_text stack.now ≡ None) (λ fault. IsEndFault stack.now fault) }
{
    match stack.innermost_text() {
        Some((_, opening)) => Some(LexicalFault {
            kind: FaultKind::UnendedText,
            at: opening,
        }),
        None => None,
    }
}

/// Reads a script from its start. `AllocError` only for want of memory.
pub(crate) fn raw_tokens(alloc: Global, src: &[u8]) -> Result<RawTokens, AllocError>
    ensures { IfOk result (λ raw. IsRead src.now raw.tokens raw.fault) }
{
    let mut tokens = Tokens::new(alloc);
    let mut stack = OpenStack::new(alloc);
    let mut at = mark_end(src);
    let mut place = place_of(src, at);
    'steps: while at < src.len() {
        match next_step(alloc, src, &mut stack, at, place, &mut tokens)? {
            Step::Goes(next) => {
                place = later_place(src, at, place, next);
                at = next;
            }
            Step::Fails(kind, fault) => {
                let fault = Some(LexicalFault { kind, at: fault });
                return Ok(RawTokens { tokens, fault });
            }
        }
    }
    let fault = end_fault(&stack);
    Ok(RawTokens { tokens, fault })
}
