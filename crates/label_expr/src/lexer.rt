//! The tokens of a label expression.
ghost use Rattle.std.specs.Prelude.{◌≡◌, ◌≢◌, ◌+◌, ◌≤◌, ◌<◌, ℕ, ◌∷◌, List, nat_eq, not, length, drop, MatchOption, IfOk, IsTrue, OnOk, ◌++◌};
ghost use Rattle.std.specs.List.{prefix_len};
ghost use Rattle.model_run.specs.LabelTokens as tokens;
ghost use Rattle.label_expr.specs.Readings.{sign_of, token_of, seen, IsToken, no_sign, goes_on};

use crate::token::{Sign, Spot, Token};
use model_text::Text;
use std::alloc::{AllocError, Global};

/// The sign that bytes begin with, and how many bytes it has.
fn sign(bytes: &[u8]) -> Option<(Sign, usize)>
    requires { 0 < length bytes.now }
    ensures { MatchOption result (tokens.token_of bytes.now ≡ no_sign bytes.now) (λ sign. (tokens.token_of bytes.now ≡ (sign_of sign.0, sign.1)) × (1 ≤ sign.1) × (sign.1 ≤ length bytes.now)) }
{
    match bytes {
        [b' ' | b'\t', ..] => Some((Sign::Blank, 1)),
        [b'!', ..] => Some((Sign::Not, 1)),
        [b'&', b'&', ..] => Some((Sign::And, 2)),
        [b'|', b'|', ..] => Some((Sign::Or, 2)),
        [b'-', b'>', ..] => Some((Sign::Implies, 2)),
        [b'<', b'-', b'>', ..] => Some((Sign::Iff, 3)),
        [b'(', ..] => Some((Sign::Open, 1)),
        [b')', ..] => Some((Sign::Close, 1)),
        _ => None,
    }
}

/// Whether names have this byte.
fn is_name_byte(byte: u8) -> bool
    ensures { result ≡ tokens.is_name_byte byte }
{
    match byte {
        b'a'..=b'z' | b'A'..=b'Z' | b'-'..=b'9' | b'_' => true,
        _ => false,
    }
}

/// Whether a name that has begun goes on with these bytes: `-` before `>` ends it.
fn goes_on(bytes: &[u8]) -> bool
    ensures value { result ≡ goes_on bytes.now }
    ensures some { IsTrue result → 0 < length bytes.now }
{
    match bytes {
        [first, ..] => is_name_byte(*first) && !bytes.starts_with(b"->"),
        [] => false,
    }
}

/// How many bytes of a name these begin with.
fn name_length(bytes: &[u8]) -> usize
    ensures length { result ≡ tokens.name_length bytes.now }
    ensures within { result ≤ length bytes.now }
{
    let mut length = 0;
    'bytes: while goes_on(&bytes[length..]) {
        length += 1;
    }
    length
}

/// How many bytes stand before the first double quote, or before the end.
fn quoted_length(bytes: &[u8]) -> usize
    ensures length { result ≡ prefix_len (λ c. not (nat_eq c 34)) bytes.now }
    ensures within { result ≤ length bytes.now }
{
    let mut length = 0;
    'bytes: while length < bytes.len() && bytes[length] != b'"' {
        length += 1;
    }
    length
}

/// The name that bytes begin with, or the one unknown byte.
fn name(alloc: Global, bytes: &[u8]) -> Result<(Token, usize), AllocError>
    requires { 0 < length bytes.now }
    ensures { IfOk result (λ read. IsToken (tokens.named (tokens.name_length bytes.now) bytes.now) (length bytes.now) read) }
{
    let length = name_length(bytes);
    if length == 0 {
        return Ok((Token::Sign(Sign::Unknown), 1));
    }
    let name = Text::from_slice(alloc, &bytes[..length])?;
    Ok((Token::Name(name), length))
}

/// The name in double quotes whose opening one stands before these bytes, or that one as an unknown byte.
fn quoted(alloc: Global, bytes: &[u8]) -> Result<(Token, usize), AllocError>
    ensures { IfOk result (λ read. IsToken (tokens.quoted (prefix_len (λ c. not (nat_eq c 34)) bytes.now) bytes.now) (length bytes.now + 1) read) }
{
    let length = quoted_length(bytes);
    if length == 0 || length == bytes.len() {
        return Ok((Token::Sign(Sign::Unknown), 1));
    }
    let name = Text::from_slice(alloc, &bytes[..length])?;
    Ok((Token::Name(name), length + 2))
}

/// The token that bytes begin with, and how many bytes it has.
fn token(alloc: Global, bytes: &[u8]) -> Result<(Token, usize), AllocError>
    requires { 0 < length bytes.now }
    ensures { IfOk result (λ read. IsToken (tokens.token_of bytes.now) (length bytes.now) read) }
{
    if let Some((sign, length)) = sign(bytes) {
        return Ok((Token::Sign(sign), length));
    }
    if bytes[0] == b'"' {
        return quoted(alloc, &bytes[1..]);
    }
    name(alloc, bytes)
}

/// Puts a token behind these where it is no blank.
fn keep(spots: &mut Vec<Spot>, token: Token, at: usize) -> Result<(), AllocError>
    ensures { OnOk result ((rest : List tokens.Spot) → seen spots.old.items ++ tokens.spot_before (token_of token) at rest ≡ seen spots.new.items ++ rest) }
{
    if token.is(Sign::Blank) {
        return Ok(());
    }
    spots.push(Spot {
        token,
        at: at as u64,
    })?;
    Ok(())
}

/// The tokens of a text, without its blanks. `AllocError` comes where the memory was refused.
pub(crate) fn spots(alloc: Global, text: &[u8]) -> Result<Vec<Spot>, AllocError>
    ensures { IfOk result (λ spots. seen spots.items ≡ tokens.spots_of text.now) }
{
    let mut spots = Vec::new(alloc);
    let mut at = 0;
    'tokens: while at < text.len() {
        let (token, length) = token(alloc, &text[at..])?;
        keep(&mut spots, token, at)?;
        at += length;
    }
    Ok(spots)
}
