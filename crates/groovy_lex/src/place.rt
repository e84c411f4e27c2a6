//! Lines and columns.
ghost use Rattle.std.specs.Prelude.{◌≡◌, ◌+◌, ◌<◌, ◌≤◌, length, MatchBool};
ghost use Rattle.model_syntax.specs.Source.{byte_at};
ghost use Rattle.model_syntax.specs.Places.{is_inner, mark_end, place_at};

use crate::source::{is_at, peek, stands_pair};
use model_syntax::Place;

/// The place behind a byte order mark, and 0 where the script begins with none.
pub(crate) fn mark_end(src: &[u8]) -> usize
    ensures value { result ≡ mark_end (byte_at src.now) }
    ensures inside { result ≤ length src.now }
{
    if is_at(src, 0, 0xEF) && stands_pair(src, 1, 0xBB, 0xBF) {
        3
    } else {
        0
    }
}

/// Whether the byte is a later one of a character, as UTF-8 has it.
fn continues_character(src: &[u8], at: usize) -> bool
    ensures { MatchBool result ((128 ≤ byte_at src.now at) × (byte_at src.now at < 192)) (128 ≤ byte_at src.now at → 192 ≤ byte_at src.now at) }
{
    match peek(src, at) {
        Some(byte) => 0x80 <= byte && byte < 0xC0,
        None => false,
    }
}

/// Whether the byte does not begin a character.
fn is_inner(src: &[u8], at: usize) -> bool
    ensures { result ≡ is_inner (byte_at src.now) at }
{
    at < mark_end(src) || continues_character(src, at)
}

/// The line and the column of the next byte, from those of this one.
fn next_place(src: &[u8], at: usize, place: Place) -> Place
    requires { place ≡ place_at (byte_at src.now) at }
    ensures { result ≡ place_at (byte_at src.now) (at + 1) }
{
    if is_at(src, at, b'\n') {
        return Place {
            line: place.line.saturating_add(1),
            column: 1,
        };
    }
    if is_inner(src, at) {
        return place;
    }
    Place {
        line: place.line,
        column: place.column.saturating_add(1),
    }
}

/// The line and the column of a later byte, from those of an earlier one. It looks at the bytes between them alone.
pub(crate) fn later_place(src: &[u8], from: usize, place: Place, to: usize) -> Place
    requires begins { place ≡ place_at (byte_at src.now) from }
    requires later { from ≤ to }
    ensures { result ≡ place_at (byte_at src.now) to }
{
    let mut place = place;
    'bytes: for at in from..to {
        place = next_place(src, at, place);
    }
    place
}

/// The line and the column of the byte at `at`: lines count from 1 by LF, columns from 1 in characters, and both stand
/// still at 4294967295. At the script's end and behind it each place counts as one more character (this product's own).
pub fn place_of(src: &[u8], at: usize) -> Place
    ensures { result ≡ place_at (byte_at src.now) at }
{
    later_place(src, 0, Place { line: 1, column: 1 }, at)
}
