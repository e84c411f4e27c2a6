//! Texts by their characters: positions and lengths of texts count these.

ghost use Rattle.std.specs.Prelude.{◌≡◌, ◌≤◌, count_by, length};
ghost use Rattle.std.specs.Fmt.{is_char_start};
ghost use Rattle.model_values.specs.Characters.{characters, part_of};

use cell_heap::{is_char_start, place_of_character};

/// How many characters a text has. It goes once over its bytes.
pub fn character_count(text: &[u8]) -> usize
    ensures { result ≡ length (characters text.now) }
{
    if text.is_empty() {
        0
    } else {
        1 + start_count(&text[1..])
    }
}

/// The characters from one place up to another, counted from 0; none where the second is not behind the first. It
/// goes once over the bytes in front of the second.
pub fn character_range(text: &[u8], from: usize, to: usize) -> &[u8]
    ensures { result.now ≡ part_of text.now from to }
{
    let behind = &text[place_of_character(text, from)..];
    &behind[..place_of_character(behind, to.saturating_sub(from))]
}

/// How many bytes are the first of a character in UTF-8. It goes once over them.
pub fn start_count(bytes: &[u8]) -> usize
    ensures count { result ≡ count_by is_char_start bytes.now }
    ensures bound { result ≤ length bytes.now }
{
    bytes.iter().filter(|byte| is_char_start(**byte)).count()
}
