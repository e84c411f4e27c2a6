//! Groovy's truth.

ghost use Rattle.std.specs.Prelude.{◌≡◌, length};
ghost use Rattle.cell_heap.specs.Soundness.{ValueBelow};
ghost use Rattle.model_values.specs.Truth.{truth};

use crate::{Kind, kind_of};
use cell_heap::Heap;
use model_values::Value;

/// Whether a script takes the value for true: null, false, 0, the empty text, list and map are false (Groovy's
/// truth). It takes no memory.
pub fn truth(heap: &Heap, value: &Value) -> bool
    requires { ValueBelow (length heap.now.cells) value.now }
    ensures { result ≡ truth heap.now.cells value.now }
{
    match kind_of(heap, value) {
        Kind::Null => false,
        Kind::Flag(flag) => flag,
        Kind::Number(number) => number != 0,
        Kind::Text(text) => !text.is_empty(),
        Kind::List(_, values) => !values.is_empty(),
        Kind::Map(_, entries) => !entries.is_empty(),
        Kind::Closure(_) | Kind::Thrown(_, _, _) => true,
    }
}
