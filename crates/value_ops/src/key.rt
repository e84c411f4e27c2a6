//! The keys of maps.

ghost use Rattle.std.specs.Prelude.{◌≡◌, IfOk};
ghost use Rattle.model_values.specs.Index.{key_of};
ghost use Rattle.value_view.specs.Seen.{seen};

use model_text::Text;
use model_values::Key;
use std::alloc::AllocError;
use value_view::Kind;

/// The key of a map that a value is: a text or a whole number, and nothing else. A text is copied.
pub fn key_of(kind: &Kind<'_>) -> Result<Option<Key>, AllocError>
    ensures { IfOk result (λ key. key ≡ key_of (seen kind.now)) }
{
    match kind {
        Kind::Text(text) => Ok(Some(Key::Text(Text::clone(text)?))),
        Kind::Number(number) => Ok(Some(Key::Int(*number))),
        _ => Ok(None),
    }
}
