//! Texts within texts. Each search takes time in proportion to the bytes of both.

ghost use Rattle.std.specs.Prelude.{◌≡◌, ◌<◌, ◌≤◌, [], zero, length, IfSome};
ghost use Rattle.model_values.specs.Searching.{begins_with, ends_with, found_from, replaced_behind};
ghost use Rattle.model_values.specs.Limits.{product_limits};
ghost use Rattle.model_values.specs.TextOf.{behind};
ghost use Rattle.value_view.specs.Answers.{IsWritten};

use memchr::memmem;
use model_text::Text;
use std::alloc::Global;
use value_view::{OpRefusal, start_count, write_bytes};

/// Whether a text begins with another.
pub(crate) fn begins_with(text: &[u8], part: &[u8]) -> bool
    ensures { result ≡ begins_with text.now part.now }
{
    text.starts_with(part)
}

/// Whether a text ends with another.
pub(crate) fn ends_with(text: &[u8], part: &[u8]) -> bool
    ensures { result ≡ ends_with text.now part.now }
{
    text.ends_with(part)
}

/// How many characters stand in front of the first place of another text, and `None` exactly where it has none.
pub(crate) fn place_of(text: &[u8], part: &[u8]) -> Option<usize>
    ensures place { result ≡ found_from 0 text.now part.now }
    ensures few { IfSome result (λ place. place ≤ length text.now) }
{
    let at = memmem::find(text, part)?;
    Some(start_count(&text[..at]))
}

/// A text with `new` in each place of `old`, which is not empty, from the left. `Limit` where it would be longer than a
/// text may be; no longer text is built then.
pub(crate) fn replaced(
    alloc: Global,
    text: &[u8],
    old: &[u8],
    new: &[u8],
) -> Result<Text, OpRefusal>
    requires { 0 < length old.now }
    ensures { IsWritten (behind product_limits [] (replaced_behind zero text.now old.now new.now) []) result }
{
    let mut built = Text::new(alloc);
    let mut rest = text;
    while let Some(at) = memmem::find(rest, old) {
        write_bytes(&rest[..at], &mut built)?;
        write_bytes(new, &mut built)?;
        rest = &rest[at + old.len()..];
    }
    write_bytes(rest, &mut built)?;
    Ok(built)
}
