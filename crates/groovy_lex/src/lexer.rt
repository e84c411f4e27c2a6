//! The tokens of a script.
ghost use Rattle.std.specs.Prelude.{◌≡◌, List, IfOk, IfErr};
ghost use Rattle.model_syntax.specs.declared.token.Token.{Token};
ghost use Rattle.model_syntax.specs.Tokens.{Lexed, InOrder};
ghost use Rattle.model_syntax.specs.BracketDepth.{IsShallow};
ghost use Rattle.groovy_lex.specs.Refusals.{IsRefusal};

use crate::newlines::{kept_tokens, tokens_before};
use crate::raw::raw_tokens;
use model_syntax::{FaultKind, Tokens};
use std::alloc::{AllocError, Global};

/// Why a script has no tokens.
#[derive(Drop)]
pub enum LexRefusal {
    /// The memory was refused.
    Memory,
    /// It has this lexical fault, at this place in bytes from its start; `before` are the tokens that begin before it.
    Fault {
        before: Tokens,
        at: usize,
        kind: FaultKind,
    },
}

impl From<AllocError> for LexRefusal {
    ghost use Rattle.std.specs.Prelude.{◌≡◌};
    ghost use Rattle.groovy_lex.specs.declared.lexer.LexRefusal.TheVariants.{Memory};

    ghost from_gives = { λ _ e. e ≡ Memory };

    fn from(_: AllocError) -> LexRefusal {
        LexRefusal::Memory
    }
}

/// The tokens of a script, in its order. It goes over the script once or twice.
///
/// Each has its bytes, from `start` up to `end`, and the line and the column of its first byte. Their brackets nest at
/// most 128 deep. A script that has no tokens has one lexical fault: `Fault` tells it, with the tokens that begin before
/// it, of which the same holds. `Memory` comes only where the memory was refused.
pub fn lex(alloc: Global, src: &[u8]) -> Result<Tokens, LexRefusal>
    ensures found { IfOk result (λ tokens. Lexed src.now tokens) }
    ensures only { IfOk result (λ tokens. (others : List Token) → Lexed src.now others → others ≡ tokens) }
    ensures order { IfOk result (λ tokens. InOrder 0 tokens) }
    ensures shallow { IfOk result (λ tokens. IsShallow tokens) }
    ensures fault { IfErr result (λ refusal. IsRefusal src.now refusal) }
{
    let raw = raw_tokens(alloc, src)?;
    match raw.fault {
        None => {
            let tokens = kept_tokens(alloc, raw.tokens)?;
            Ok(tokens)
        }
        Some(fault) => {
            let begun = tokens_before(alloc, raw.tokens, fault.at)?;
            let before = kept_tokens(alloc, begun)?;
            Err(LexRefusal::Fault {
                before,
                at: fault.at,
                kind: fault.kind,
            })
        }
    }
}
