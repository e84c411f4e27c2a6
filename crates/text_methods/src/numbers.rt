//! Whole numbers as texts.

ghost use Rattle.std.specs.Prelude.{◌≡◌, ◌≤◌, IfSome};
ghost use Rattle.model_values.specs.Searching.{digit_of, int_of, some_digits};

/// The whole number that a text spells: a sign or none and decimal digits, within 32 bits (Java's `parseInt`).
pub(crate) fn whole_number(text: &[u8]) -> Option<i32>
    ensures { result ≡ int_of text.now }
{
    if text.is_empty() {
        return None;
    }
    if text[0] == b'-' {
        return match digits(&text[1..], 2147483648) {
            Some(number) => Some(-(number as i64) as i32),
            None => None,
        };
    }
    let behind = if text[0] == b'+' { &text[1..] } else { text };
    match digits(behind, 2147483647) {
        Some(number) => Some(number as i32),
        None => None,
    }
}

/// The number that one digit or more spell, up to a number.
fn digits(bytes: &[u8], most: u32) -> Option<u32>
    requires { most ≤ 2147483648 }
    ensures number { result ≡ some_digits most bytes.now }
    ensures small { IfSome result (λ number. number ≤ most) }
{
    if bytes.is_empty() {
        return None;
    }
    let mut number = 0;
    for byte in bytes {
        let digit = digit_of(*byte)?;
        number = 10 * number + u64::from(digit);
        if number > u64::from(most) {
            return None;
        }
    }
    Some(number as u32)
}

fn digit_of(byte: u8) -> Option<u8>
    ensures digit { result ≡ digit_of byte }
    ensures small { IfSome result (λ digit. digit ≤ 9) }
{
    if byte.is_ascii_digit() {
        Some(byte - b'0')
    } else {
        None
    }
}
