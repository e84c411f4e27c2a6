//! Whole numbers, from 0 to 2147483647.
ghost use Rattle.std.specs.Prelude.{◌≡◌, ℕ, ◌+◌, ◌<◌, ◌≤◌, length, All, true, pos, MatchBool, MatchOption, IfSome};
ghost use Rattle.std.specs.Char.{is_ascii_digit};
ghost use Rattle.std.specs.Str.Parse.{digits_value};
ghost use Rattle.model_syntax.specs.Source.{byte_at};
ghost use Rattle.groovy_lex.specs.Numbers.{IsNumberAt, IsBadNumberAt};

use crate::names::{Class, letter_at, run_end};
use crate::source::{byte, is_at, peek};

/// The largest number of 32 bits with a sign.
const LARGEST: u64 = 2147483647;

/// The number of these digits, and `None` where it is above 2147483647.
fn number_of(digits: &[u8]) -> Option<i32>
    requires { All (λ c. is_ascii_digit c ≡ true) digits.now }
    ensures { MatchOption result (2147483647 < digits_value 10 digits.now) (λ v. (v ≡ pos (digits_value 10 digits.now)) × (digits_value 10 digits.now ≤ 2147483647)) }
{
    let mut value: u64 = 0;
    'digits: for digit in digits {
        value = 10 * value + u64::from(*digit - b'0');
        if value > LARGEST {
            return None;
        }
    }
    Some(value as i32)
}

/// Whether the digits from one place up to another are a 0 and more digits.
fn leads_zero(src: &[u8], at: usize, end: usize) -> bool
    requires { at < length src.now }
    ensures { MatchBool result ((byte_at src.now at ≡ 48) × (at + 1 < end)) ((byte_at src.now at ≡ 48) × (at + 1 < end) → ⊥) }
{
    byte(src, at) == b'0' && at + 1 < end
}

/// Whether a digit stands at the place.
fn digit_at(src: &[u8], at: usize) -> bool
    ensures { result ≡ is_ascii_digit (byte_at src.now at) }
{
    match peek(src, at) {
        Some(byte) => byte.is_ascii_digit(),
        None => false,
    }
}

/// Whether a dot and a digit stand at the place.
fn has_fraction(src: &[u8], at: usize) -> bool
    requires { at ≤ length src.now }
    ensures { MatchBool result ((byte_at src.now at ≡ 46) × (is_ascii_digit (byte_at src.now (at + 1)) ≡ true)) ((byte_at src.now at ≡ 46) × (is_ascii_digit (byte_at src.now (at + 1)) ≡ true) → ⊥) }
{
    is_at(src, at, b'.') && digit_at(src, at + 1)
}

/// The number that stands at a place, and the place behind it; `None` where it is refused.
pub(crate) fn number_at(src: &[u8], at: usize) -> Option<(i32, usize)>
    requires digit { is_ascii_digit (byte_at src.now at) ≡ true }
    requires inside { at < length src.now }
    ensures fits { MatchOption result (IsBadNumberAt (byte_at src.now) at) (λ number. IsNumberAt (byte_at src.now) at number.1 number.0) }
    ensures past { IfSome result (λ number. (at < number.1) × (number.1 ≤ length src.now)) }
{
    let end = run_end(src, at, Class::Digit);
    if leads_zero(src, at, end) {
        return None;
    }
    if letter_at(src, end) {
        return None;
    }
    if has_fraction(src, end) {
        return None;
    }
    match number_of(&src[at..end]) {
        Some(value) => Some((value, end)),
        None => None,
    }
}
