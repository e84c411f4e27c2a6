//! The signs of the language: a part of Groovy's.
ghost use Rattle.std.specs.Prelude.{◌≡◌, ℕ, ◌+◌, ◌<◌, ◌≤◌, length, MatchOption, IfSome};
ghost use Rattle.model_syntax.specs.declared.sign.Sign.{Sign};
ghost use Rattle.model_syntax.specs.Source.{byte_at, Spelled};
ghost use Rattle.model_syntax.specs.Spelling.{sign_text};
ghost use Rattle.groovy_lex.specs.Signs.{pair_sign, single_sign, IsSignAt};

use crate::source::{byte, peek};
use model_syntax::Sign;

/// The signs of two bytes.
#[tactic(auto, unfolding(crate::specs::Signs::pair_sign))]
fn pair_sign(first: u8, next: u8) -> Option<Sign>
    ensures { result ≡ pair_sign first next }
{
    match (first, next) {
        (b'+', b'=') => Some(Sign::PlusAssign),
        (b'-', b'=') => Some(Sign::MinusAssign),
        (b'*', b'=') => Some(Sign::TimesAssign),
        (b'%', b'=') => Some(Sign::ModAssign),
        (b'=', b'=') => Some(Sign::Equal),
        (b'!', b'=') => Some(Sign::NotEqual),
        (b'<', b'=') => Some(Sign::LessEqual),
        (b'>', b'=') => Some(Sign::GreaterEqual),
        (b'?', b':') => Some(Sign::Elvis),
        (b'?', b'.') => Some(Sign::SafeDot),
        (b'.', b'.') => Some(Sign::Range),
        (b'-', b'>') => Some(Sign::Arrow),
        (b'+', b'+') => Some(Sign::Increment),
        (b'-', b'-') => Some(Sign::Decrement),
        (b'|', b'|') => Some(Sign::Or),
        (b'&', b'&') => Some(Sign::And),
        _ => None,
    }
}

/// The signs of one byte.
#[tactic(auto, unfolding(crate::specs::Signs::single_sign))]
fn single_sign(byte: u8) -> Option<Sign>
    ensures { result ≡ single_sign byte }
{
    match byte {
        b'(' => Some(Sign::ParenOpen),
        b')' => Some(Sign::ParenClose),
        b'[' => Some(Sign::BracketOpen),
        b']' => Some(Sign::BracketClose),
        b'{' => Some(Sign::BraceOpen),
        b'}' => Some(Sign::BraceClose),
        b',' => Some(Sign::Comma),
        b';' => Some(Sign::Semicolon),
        b':' => Some(Sign::Colon),
        b'?' => Some(Sign::Question),
        b'.' => Some(Sign::Dot),
        b'=' => Some(Sign::Assign),
        b'<' => Some(Sign::Less),
        b'>' => Some(Sign::Greater),
        b'+' => Some(Sign::Plus),
        b'-' => Some(Sign::Minus),
        b'*' => Some(Sign::Times),
        b'%' => Some(Sign::Mod),
        b'!' => Some(Sign::Not),
        _ => None,
    }
}

/// The sign of the two bytes at a place, and `None` where they are none.
fn pair_at(src: &[u8], at: usize) -> Option<Sign>
    requires { at < length src.now }
    ensures { result ≡ pair_sign (byte_at src.now at) (byte_at src.now (at + 1)) }
{
    match peek(src, at + 1) {
        Some(next) => pair_sign(byte(src, at), next),
        None => None,
    }
}

/// The longest sign that stands at a place, and the place behind it; `None` where none stands.
pub(crate) fn sign_at(src: &[u8], at: usize) -> Option<(Sign, usize)>
    requires { at < length src.now }
    ensures stands { MatchOption result ((x : Sign) → Spelled (byte_at src.now) (sign_text x) at → ⊥) (λ sign. IsSignAt (byte_at src.now) at sign.1 sign.0) }
    ensures past { IfSome result (λ sign. (at < sign.1) × (sign.1 ≤ length src.now)) }
{
    if let Some(sign) = pair_at(src, at) {
        return Some((sign, at + 2));
    }
    match single_sign(byte(src, at)) {
        Some(sign) => Some((sign, at + 1)),
        None => None,
    }
}
