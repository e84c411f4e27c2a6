//! What the lexer finds at a place of a script.
use model_syntax::{FaultKind, TokenKind};

/// What stands at a place.
#[derive(Drop)]
pub(crate) enum Found {
    /// Something that is no token, up to this place: a blank, a comment, or a part of a text that stands for nothing.
    Blank(usize),
    /// A token, up to this place.
    Token(TokenKind, usize),
    /// A `$` in a text, with names behind it: several tokens.
    Path,
    /// The fault of this kind, at this place.
    Fails(FaultKind, usize),
}
