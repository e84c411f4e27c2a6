//! A text without blanks at its ends.

ghost use Rattle.std.specs.Prelude.{◌≡◌, reverse};
ghost use Rattle.model_values.specs.Searching.{trimmed, trimmed_front};

/// A text without the characters up to U+0020 at both ends, as Java's `trim` drops them. A no-break space stays.
pub(crate) fn trimmed(text: &[u8]) -> &[u8]
    ensures { result.now ≡ trimmed text.now }
{
    trimmed_end(trimmed_start(text))
}

fn trimmed_start(text: &[u8]) -> &[u8]
    ensures { result.now ≡ trimmed_front text.now }
{
    for (at, byte) in text.iter().enumerate() {
        if *byte > b' ' {
            return &text[at..];
        }
    }
    &text[text.len()..]
}

fn trimmed_end(text: &[u8]) -> &[u8]
    ensures { result.now ≡ reverse (trimmed_front (reverse text.now)) }
{
    let mut end = text.len();
    while end > 0 && text[end - 1] <= b' ' {
        end -= 1;
    }
    &text[..end]
}
