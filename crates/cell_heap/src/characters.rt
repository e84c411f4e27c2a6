//! Where the characters of a text begin.

ghost use Rattle.std.specs.Prelude.{◌≡◌, ◌≤◌, length};
ghost use Rattle.std.specs.Fmt.{is_char_start};
ghost use Rattle.cell_heap.specs.Places.{place_of_character};

/// The byte at which this character begins, counted from 0, and behind the last character the length. It goes once
/// over the bytes in front.
pub fn place_of_character(text: &[u8], at: usize) -> usize
    ensures place { result ≡ place_of_character text.now at }
    ensures within { result ≤ length text.now }
{
    if at == 0 || text.is_empty() {
        return 0;
    }
    let mut left = at - 1;
    for (place, byte) in text[1..].iter().enumerate() {
        if is_char_start(*byte) {
            if left == 0 {
                return place + 1;
            }
            left -= 1;
        }
    }
    text.len()
}

/// Whether a byte is the first of a character in UTF-8.
pub fn is_char_start(byte: u8) -> bool
    ensures { result ≡ is_char_start byte }
{
    byte < 0x80 || byte >= 0xC0
}
