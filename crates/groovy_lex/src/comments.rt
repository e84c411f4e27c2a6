//! Comments: `//`, or `#!` at the start of the script, to the line's end, and `/*` up to the first `*/`.
ghost use Rattle.std.specs.Prelude.{◌+◌, ◌<◌, ◌≤◌, ◌⊎◌, List, length, codes, MatchBool};
ghost use Rattle.model_syntax.specs.Source.{byte_at, Spelled, NoCharacter, Passed};
ghost use Rattle.model_syntax.specs.OpenBrackets.{Open, IsCode};
ghost use Rattle.model_syntax.specs.Reading.{BeginsLine};
ghost use Rattle.groovy_lex.specs.Comments.{Ends};
ghost use Rattle.groovy_lex.specs.Steps.{IsFound};

use crate::characters::character_end;
use crate::found::Found;
use crate::source::{is_at, stands_pair};
use model_syntax::FaultKind;

/// The kinds of comments, by what ends them.
#[derive(Clone, Copy, PartialEq, Eq, Debug)]
enum Comment {
    /// Up to a newline.
    Line,
    /// Up to `*/`.
    Block,
}

/// Whether the comment ends at the place.
fn ends(src: &[u8], at: usize, comment: Comment) -> bool
    requires { at < length src.now }
    ensures { MatchBool result (Ends (byte_at src.now) comment at) (Ends (byte_at src.now) comment at → ⊥) }
{
    match comment {
        Comment::Line => is_at(src, at, b'\n'),
        Comment::Block => stands_pair(src, at, b'*', b'/'),
    }
}

/// The first place at which a comment ends, or the script, or a byte stands that is of no character.
fn comment_end(src: &[u8], from: usize, comment: Comment) -> usize
    requires { from ≤ length src.now }
    ensures passed { Passed (byte_at src.now) (Ends (byte_at src.now) comment) from result }
    ensures stops { Ends (byte_at src.now) comment result ⊎ NoCharacter (byte_at src.now) result }
    ensures later { from ≤ result }
    ensures inside { result ≤ length src.now }
{
    let mut at = from;
    'characters: while at < src.len() {
        if ends(src, at, comment) {
            return at;
        }
        match character_end(src, at) {
            Some(end) => at = end,
            None => return at,
        }
    }
    at
}

/// A comment to the line's end. The newline is not of the comment.
pub(crate) fn line_comment(src: &[u8], at: usize) -> Found
    requires begins { BeginsLine (byte_at src.now) at }
    requires inside { at + 2 ≤ length src.now }
    ensures { (s : List Open) → IsCode s → IsFound (byte_at src.now) (length src.now) s s at result }
{
    let end = comment_end(src, at + 2, Comment::Line);
    if end == src.len() || is_at(src, end, b'\n') {
        return Found::Blank(end);
    }
    Found::Fails(FaultKind::NotUtf8, end)
}

/// A comment up to its `*/`.
pub(crate) fn block_comment(src: &[u8], at: usize) -> Found
    requires begins { Spelled (byte_at src.now) (codes "/*") at }
    requires inside { at + 2 ≤ length src.now }
    ensures { (s : List Open) → IsCode s → IsFound (byte_at src.now) (length src.now) s s at result }
{
    let end = comment_end(src, at + 2, Comment::Block);
    if end == src.len() {
        return Found::Fails(FaultKind::UnendedComment, at);
    }
    if stands_pair(src, end, b'*', b'/') {
        return Found::Blank(end + 2);
    }
    Found::Fails(FaultKind::NotUtf8, end)
}
