//! How deep brackets nest.
ghost use Rattle.std.specs.Prelude.{◌≡◌, ◌≤◌, MatchBool};
ghost use Rattle.model_syntax.specs.BracketDepth.{IsShallow, depth_behind};

use model_syntax::{Sign, Token, TokenKind};

/// The most brackets that may be open at one place: this product's own limit.
const DEPTH_LIMIT: usize = 128;

/// How many brackets are open behind a token where this many are open before it.
fn depth_behind(depth: usize, kind: &TokenKind) -> usize
    requires few { depth ≤ 128 }
    ensures { result ≡ depth_behind depth kind.now }
{
    match kind {
        TokenKind::ExpressionOpen
        | TokenKind::Sign(Sign::ParenOpen | Sign::BracketOpen | Sign::BraceOpen) => depth + 1,
        TokenKind::Sign(Sign::ParenClose | Sign::BracketClose | Sign::BraceClose) => {
            depth.saturating_sub(1)
        }
        _ => depth,
    }
}

/// Whether the brackets of these tokens nest at most 128 deep: `(`, `[`, `{` and `${` count, texts do not.
///
/// This is what [`Parser::new`](crate::Parser::new), and `read_expr`, `read_stmt` and `read_block` of `groovy_expr`, ask of
/// tokens. Those of the lexer are so.
pub fn is_shallow(tokens: &[Token]) -> bool
    ensures { MatchBool result (IsShallow tokens.now) (IsShallow tokens.now → ⊥) }
{
    let mut depth = 0;
    for token in tokens {
        depth = depth_behind(depth, &token.kind);
        if depth > DEPTH_LIMIT {
            return false;
        }
    }
    true
}
