//! The characters of a text, and what they stand for.
ghost use Rattle.std.specs.Prelude.{◌≡◌, ℕ, ◌+◌, ◌-◌, ◌^◌, ◌<◌, ◌≤◌, ◌≢◌, ◌++◌, length, encode_utf8, MatchBool, MatchOption, IfOk};
ghost use Rattle.std.specs.Char.{IsScalar, digit_value};
ghost use Rattle.std.specs.Str.Parse.{AllDigits, digits_value};
ghost use Rattle.model_syntax.specs.Source.{byte_at, Spelled};
ghost use Rattle.model_syntax.specs.TextForms.{Form, quotes, escape, is_plain, Begun};
ghost use Rattle.groovy_lex.specs.OpenStack.{form_of};
ghost use Rattle.groovy_lex.specs.Contents.{four, Takes};

use crate::characters::character_end;
use crate::open::TextForm;
use crate::source::{byte, is_at, peek, stands_pair};
use model_text::Text;
use std::alloc::AllocError;

/// Whether the closing quotes of a text of this form stand at the place.
pub(crate) fn closes(src: &[u8], form: TextForm, at: usize) -> bool
    requires { at ≤ length src.now }
    ensures { MatchBool result (Spelled (byte_at src.now) (quotes (form_of form)) at) (Spelled (byte_at src.now) (quotes (form_of form)) at → ⊥) }
{
    let quote = form.quote();
    if !is_at(src, at, quote) {
        return false;
    }
    if !form.is_triple() {
        return true;
    }
    stands_pair(src, at + 1, quote, quote)
}

/// Whether the byte stands for itself in a text of this form, where it begins a character.
fn is_plain(form: TextForm, byte: u8) -> bool
    ensures { result ≡ is_plain (form_of form) byte }
{
    let ends = byte == b'\n' || byte == form.quote();
    byte != b'\\' && ((form.is_triple() || !ends) && !(form.is_double() && byte == b'$'))
}

/// What a backslash and this byte stand for.
fn escape_of(byte: u8) -> Option<u8>
    ensures { result ≡ escape byte }
{
    match byte {
        b'n' => Some(b'\n'),
        b't' => Some(b'\t'),
        b'r' => Some(b'\r'),
        b'b' => Some(b'\x08'),
        b'f' => Some(b'\x0C'),
        b'\\' | b'\'' | b'"' | b'$' => Some(byte),
        _ => None,
    }
}

/// What a backslash and the byte at a place stand for.
fn escape_at(src: &[u8], at: usize) -> Option<u8>
    ensures { result ≡ escape (byte_at src.now at) }
{
    match peek(src, at) {
        Some(byte) => escape_of(byte),
        None => None,
    }
}

/// The value of the hexadecimal digit at a place.
fn hexadecimal_at(src: &[u8], at: usize) -> Option<u32>
    ensures { MatchOption result (digit_value (byte_at src.now at) < 16 → ⊥) (λ digit. (digit ≡ digit_value (byte_at src.now at)) × (digit < 16) × (at < length src.now)) }
{
    match peek(src, at) {
        Some(byte) => char::from(byte).to_digit(16),
        None => None,
    }
}

/// The number of the four hexadecimal digits that stand at a place.
fn four_digits(src: &[u8], at: usize) -> Option<u32>
    requires { at < 2 ^ 64 - 4 }
    ensures { MatchOption result (AllDigits 16 (four (byte_at src.now) at) → ⊥) (λ code. AllDigits 16 (four (byte_at src.now) at) × (code ≡ digits_value 16 (four (byte_at src.now) at))) }
{
    let first = hexadecimal_at(src, at)?;
    let second = hexadecimal_at(src, at + 1)?;
    let third = hexadecimal_at(src, at + 2)?;
    let fourth = hexadecimal_at(src, at + 3)?;
    Some(((first * 16 + second) * 16 + third) * 16 + fourth)
}

/// The character of the four hexadecimal digits that stand at a place, and `None` where they are not digits or their
/// number is a surrogate's.
fn unicode(src: &[u8], at: usize) -> Option<char>
    requires { at < 2 ^ 64 - 4 }
    ensures { MatchOption result (AllDigits 16 (four (byte_at src.now) at) × IsScalar (digits_value 16 (four (byte_at src.now) at)) → ⊥) (λ c. AllDigits 16 (four (byte_at src.now) at) × IsScalar (digits_value 16 (four (byte_at src.now) at)) × (c ≡ digits_value 16 (four (byte_at src.now) at))) }
{
    match four_digits(src, at) {
        Some(code) => char::from_u32(code),
        None => None,
    }
}

/// The place up to which an escape goes on that begins here, without being over there: behind the backslash, or behind
/// `\u` and its first hexadecimal digits, three at most.
pub(crate) fn escape_front(src: &[u8], at: usize) -> usize
    requires inside { at < length src.now }
    requires backslash { byte_at src.now at ≡ 92 }
    ensures begun { (f : Form) → Begun (byte_at src.now) f at result }
    ensures furthest { (f : Form) (q : ℕ) → Begun (byte_at src.now) f at q → q ≤ result }
    ensures inside { result ≤ length src.now }
{
    if !is_at(src, at + 1, b'u') {
        return at + 1;
    }
    let mut end = at + 2;
    'digits: while end < at + 5 {
        match hexadecimal_at(src, end) {
            Some(_) => end += 1,
            None => return end,
        }
    }
    end
}

/// Puts the bytes of a character behind a text.
fn append_character(text: &mut Text, character: char) -> Result<(), AllocError>
    ensures { IfOk result (λ _. text.new ≡ text.old ++ encode_utf8 character) }
{
    let mut buffer = [0u8; 4];
    let encoded = character.encode_utf8(&mut buffer);
    text.append(encoded.as_bytes())
}

/// Puts behind a text what the escape at a place stands for. Gives the place behind it, and `None` where it is none.
fn take_escape(
    src: &[u8],
    form: TextForm,
    at: usize,
    text: &mut Text,
) -> Result<Option<usize>, AllocError>
    requires inside { at < length src.now }
    requires backslash { byte_at src.now at ≡ 92 }
    ensures takes { IfOk result (λ end. Takes (byte_at src.now) (form_of form) at (length src.now) text.old text.new end) }
{
    if is_at(src, at + 1, b'\n') {
        return Ok(Some(at + 2));
    }
    if let Some(byte) = escape_at(src, at + 1) {
        text.push(byte)?;
        return Ok(Some(at + 2));
    }
    if !is_at(src, at + 1, b'u') {
        return Ok(None);
    }
    match unicode(src, at + 2) {
        Some(character) => {
            append_character(text, character)?;
            Ok(Some(at + 6))
        }
        None => Ok(None),
    }
}

/// Puts behind a text the character that stands at a place. Gives the place behind it, and `None` where none stands for
/// itself there.
fn take_plain(
    src: &[u8],
    form: TextForm,
    at: usize,
    text: &mut Text,
) -> Result<Option<usize>, AllocError>
    requires inside { at < length src.now }
    requires plain { byte_at src.now at ≢ 92 }
    ensures takes { IfOk result (λ end. Takes (byte_at src.now) (form_of form) at (length src.now) text.old text.new end) }
{
    if !is_plain(form, byte(src, at)) {
        return Ok(None);
    }
    match character_end(src, at) {
        Some(end) => {
            text.append(&src[at..end])?;
            Ok(Some(end))
        }
        None => Ok(None),
    }
}

/// Puts behind a text what its next character stands for. Gives the place behind that character, and `None` where no
/// character of such a text stands. `AllocError` only for want of memory.
pub(crate) fn take_character(
    src: &[u8],
    form: TextForm,
    at: usize,
    text: &mut Text,
) -> Result<Option<usize>, AllocError>
    requires { at < length src.now }
    ensures takes { IfOk result (λ end. Takes (byte_at src.now) (form_of form) at (length src.now) text.old text.new end) }
{
    if byte(src, at) == b'\\' {
        take_escape(src, form, at, text)
    } else {
        take_plain(src, form, at, text)
    }
}
