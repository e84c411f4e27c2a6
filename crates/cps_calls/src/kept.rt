//! Values in order, from the front.

ghost use Rattle.std.specs.Prelude.{◌≡◌, ◌∷◌, [], MatchOption};

use model_values::{Value, Values};

/// The first value and those behind it, and `None` exactly where there is none. It takes no memory.
pub(crate) fn split_first(values: Values) -> Option<(Value, Values)>
    ensures { MatchOption result (values ≡ []) (λ parts. values ≡ parts.0 ∷ parts.1) }
{
    let mut rest = values.into_vec();
    if rest.is_empty() {
        return None;
    }
    let first = rest.remove(0);
    Some((first, Values::from_vec(rest)))
}
