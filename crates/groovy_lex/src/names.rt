//! Names, words and digits.
ghost use Rattle.std.specs.Prelude.{◌≡◌, ℕ, ◌+◌, ◌-◌, ◌<◌, ◌≤◌, length, take, drop, true, false, IsTrue, IfOk};
ghost use Rattle.model_syntax.specs.Source.{byte_at};
ghost use Rattle.model_syntax.specs.Spelling.{is_letter};
ghost use Rattle.groovy_lex.specs.Names.{is_in, Run, IsNameKind, IsNameAt};

use crate::source::{byte, peek};
use crate::words::word_of;
use model_syntax::TokenKind;
use model_text::Text;
use std::alloc::{AllocError, Global};

/// Whether a name begins with this byte: a letter of ASCII, or `_`.
pub(crate) fn is_letter(byte: u8) -> bool
    ensures { result ≡ is_letter byte }
{
    byte.is_ascii_alphabetic() || byte == b'_'
}

/// Whether a letter or `_` stands at the place.
pub(crate) fn letter_at(src: &[u8], at: usize) -> bool
    ensures value { result ≡ is_letter (byte_at src.now at) }
    ensures inside { IsTrue result → at < length src.now }
{
    match peek(src, at) {
        Some(byte) => is_letter(byte),
        None => false,
    }
}

/// The bytes of which names and numbers are made.
#[derive(Clone, Copy, PartialEq, Eq, Debug)]
pub(crate) enum Class {
    /// The digits.
    Digit,
    /// The digits, the letters and `_`.
    Name,
}

fn is_in(class: Class, byte: u8) -> bool
    ensures { result ≡ is_in class byte }
{
    match class {
        Class::Digit => byte.is_ascii_digit(),
        Class::Name => is_letter(byte) || byte.is_ascii_digit(),
    }
}

/// The place behind the bytes of this class that stand from a place on.
pub(crate) fn run_end(src: &[u8], from: usize, class: Class) -> usize
    requires { from ≤ length src.now }
    ensures run { Run (is_in class) (byte_at src.now) from result }
    ensures inside { result ≤ length src.now }
{
    let mut at = from;
    'bytes: while at < src.len() {
        if !is_in(class, byte(src, at)) {
            return at;
        }
        at += 1;
    }
    at
}

/// The name or the word of these bytes.
fn name_kind(alloc: Global, text: &[u8]) -> Result<TokenKind, AllocError>
    ensures { IfOk result (λ kind. IsNameKind text.now kind) }
{
    match word_of(text) {
        Some(word) => Ok(TokenKind::Word(word)),
        None => {
            let name = Text::from_slice(alloc, text)?;
            Ok(TokenKind::Name(name))
        }
    }
}

/// The name or the word that stands at a place, and the place behind it. Refuses only for want of memory.
pub(crate) fn name_at(
    alloc: Global,
    src: &[u8],
    at: usize,
) -> Result<(TokenKind, usize), AllocError>
    requires letter { is_letter (byte_at src.now at) ≡ true }
    requires inside { at < length src.now }
    ensures fits { IfOk result (λ name. IsNameAt (byte_at src.now) at name.1 name.0) }
    ensures past { IfOk result (λ name. (at < name.1) × (name.1 ≤ length src.now)) }
{
    let end = run_end(src, at, Class::Name);
    let kind = name_kind(alloc, &src[at..end])?;
    Ok((kind, end))
}
