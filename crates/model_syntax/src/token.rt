use crate::{Place, Sign, Word};
use model_text::{Sequence, Text};

/// What a token is.
///
/// A double-quoted text with expressions in it (Groovy's GString) is several tokens: its opening, then its parts of
/// plain text and the tokens of its expressions, then its closing.
#[derive(Clone, PartialEq, Eq, Debug, Drop)]
pub enum TokenKind {
    /// A name: a letter or `_`, then letters, digits and `_`, and none of the words.
    Name(Text),
    /// A whole number from 0 to 2147483647.
    Int(i32),
    /// A text without expressions, with what its escapes stand for.
    Text(Text),
    /// The opening of a text with expressions.
    GStringOpen,
    /// Plain text between the expressions, never empty.
    GStringPart(Text),
    /// `${` in a text: an expression follows, up to its closing sign.
    ExpressionOpen,
    /// `$` in a text: a name follows, with further names behind dots.
    PathOpen,
    /// The closing of a text with expressions.
    GStringClose,
    Sign(Sign),
    Word(Word),
    /// One or more newlines that end a statement.
    Newline,
}

/// A token, the bytes from `start` up to `end` that it stands in, and the place of the first of them.
#[derive(Clone, PartialEq, Eq, Debug, Drop)]
pub struct Token {
    pub kind: TokenKind,
    pub start: usize,
    pub end: usize,
    pub place: Place,
}

/// Tokens in the order of the script.
pub type Tokens = Sequence<Token>;
