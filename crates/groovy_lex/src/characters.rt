//! The characters of a script.
ghost use Rattle.std.specs.Prelude.{◌≡◌, ℕ, ◌+◌, ◌<◌, ◌≤◌, length, take, drop, MatchBool, MatchOption, IfSome};
ghost use Rattle.std.specs.Str.{IsUtf8};
ghost use Rattle.model_syntax.specs.Source.{byte_at, Character, NoCharacter};

use crate::source::byte;

/// Whether the script has this many bytes from a place on, and they are UTF-8.
fn is_utf8(src: &[u8], at: usize, len: usize) -> bool
    requires { at ≤ length src.now }
    ensures { MatchBool result ((at + len ≤ length src.now) × IsUtf8 (take len (drop at src.now))) (at + len ≤ length src.now → IsUtf8 (take len (drop at src.now)) → ⊥) }
{
    if len > src.len() - at {
        return false;
    }
    match str::from_utf8(&src[at..at + len]) {
        Ok(_) => true,
        Err(_) => false,
    }
}

/// The place behind the character that stands at a place, and `None` where the bytes are no UTF-8.
pub(crate) fn character_end(src: &[u8], at: usize) -> Option<usize>
    requires { at < length src.now }
    ensures stands { MatchOption result (NoCharacter (byte_at src.now) at) (λ end. (c : ℕ) × Character (byte_at src.now) c at end) }
    ensures past { IfSome result (λ end. (at < end) × (end ≤ length src.now)) }
{
    if byte(src, at) < 0x80 {
        return Some(at + 1);
    }
    'widths: for width in 2..5 {
        if is_utf8(src, at, width) {
            return Some(at + width);
        }
    }
    None
}
