//! The bytes of a script by their places.
ghost use Rattle.std.specs.Prelude.{◌≡◌, ◌≢◌, ◌+◌, ◌-◌, ◌^◌, ◌<◌, length, MatchBool, MatchOption};
ghost use Rattle.model_syntax.specs.Source.{byte_at, past_end};

/// The byte at a place.
pub(crate) fn byte(src: &[u8], at: usize) -> u8
    requires { at < length src.now }
    ensures { result ≡ byte_at src.now at }
{
    src[at]
}

/// The byte at a place, and `None` behind the last one.
pub(crate) fn peek(src: &[u8], at: usize) -> Option<u8>
    ensures { MatchOption result (byte_at src.now at ≡ past_end) (λ byte. (byte ≡ byte_at src.now at) × (at < length src.now)) }
{
    if at < src.len() { Some(src[at]) } else { None }
}

/// Whether this byte stands at the place.
pub(crate) fn is_at(src: &[u8], at: usize, byte: u8) -> bool
    ensures { MatchBool result ((byte_at src.now at ≡ byte) × (at < length src.now)) (byte_at src.now at ≢ byte) }
{
    match peek(src, at) {
        Some(found) => found == byte,
        None => false,
    }
}

/// Whether these two bytes stand at the place.
pub(crate) fn stands_pair(src: &[u8], at: usize, first: u8, second: u8) -> bool
    requires { at < 2 ^ 64 - 1 }
    ensures { MatchBool result ((byte_at src.now at ≡ first) × (byte_at src.now (at + 1) ≡ second) × (at + 1 < length src.now)) ((byte_at src.now at ≡ first) × (byte_at src.now (at + 1) ≡ second) → ⊥) }
{
    is_at(src, at, first) && is_at(src, at + 1, second)
}
