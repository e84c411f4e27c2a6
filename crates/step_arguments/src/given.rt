//! Arguments by their names.

ghost use Rattle.std.specs.Prelude.{◌≡◌, ◌∷◌, [], All, IfSome, IfOk, None, Some, length, map, true};
ghost use Rattle.cell_heap.specs.Soundness.{ValueBelow};
ghost use Rattle.model_values.specs.Fitting.{HasClosure, IsIn};
ghost use Rattle.model_values.specs.Kinds.{kind};
ghost use Rattle.model_values.specs.TextOf.{key_text};
ghost use Rattle.model_run.specs.StepTable.{given, main_name, missing, named_or_main, parameters, split_last, takes_map};
ghost use Rattle.step_arguments.specs.Parameters.{needs_main};

use crate::fits::{is_closure, key_text};
use crate::parameters::{main_name, takes_map};
use cell_heap::Heap;
use model_run::Step;
use model_text::Text;
use model_values::{Entries, Value};
use std::alloc::{AllocError, Global};
use value_view::{Kind, kind_of};

/// Arguments by their names. Of two of one name the first counts.
pub(crate) type Given = Vec<(Text, Value)>;

/// The argument of this name.
pub(crate) fn given(arguments: &[(Text, Value)], name: &str) -> Option<Value>
    ensures { result ≡ given name.now arguments.now }
{
    for (known, value) in arguments {
        if name.as_bytes() == known.as_slice() {
            return Some(*value);
        }
    }
    None
}

/// The argument of the main parameter of a step in which it has to be given.
pub(crate) fn main_argument(step: Step, arguments: &[(Text, Value)]) -> Value
    requires needs { needs_main step ≡ true }
    requires needed { missing arguments.now (parameters step) ≡ None }
    ensures { given (main_name (parameters step)) arguments.now ≡ Some result }
{
    let Some(value) = given(arguments, main_name(step)) else {
        unreachable!()
    };
    value
}

/// The arguments of a call without its body, and the body: a closure that stands last.
pub(crate) fn split_last<'a>(heap: &Heap, arguments: &'a [Value]) -> (&'a [Value], Option<Value>)
    requires { All (ValueBelow (length heap.now.cells)) arguments.now }
    ensures closure { IfSome result.1 (IsIn HasClosure heap.now.cells) }
    ensures split { (result.0.now, result.1) ≡ split_last heap.now.cells arguments.now }
{
    let count = arguments.len();
    if count == 0 {
        return (arguments, None);
    }
    let last = &arguments[count - 1];
    if is_closure(&kind_of(heap, last)) {
        (&arguments[..count - 1], Some(*last))
    } else {
        (arguments, None)
    }
}

/// One argument without a name: the main parameter, or the map of arguments with names.
pub(crate) fn named_or_main(
    alloc: Global,
    heap: &Heap,
    step: Step,
    value: &Value,
) -> Result<Given, AllocError>
    requires { ValueBelow (length heap.now.cells) value.now }
    ensures given { IfOk result (λ given. given.items ≡ named_or_main step value.now (takes_map step) (kind heap.now.cells value.now)) }
    ensures below { IfOk result (λ given. All (λ g. ValueBelow (length heap.now.cells) g.1) given.items) }
{
    match kind_of(heap, value) {
        Kind::Map(_, entries) if !takes_map(step) => named(alloc, entries),
        _ => main(alloc, step, value),
    }
}

/// One argument, which is the main parameter.
fn main(alloc: Global, step: Step, value: &Value) -> Result<Given, AllocError>
    ensures { IfOk result (λ given. given.items ≡ (main_name (parameters step), value.now) ∷ []) }
{
    let mut given = Vec::new(alloc);
    given.push((Text::from_str(alloc, main_name(step))?, *value))?;
    Ok(given)
}

/// The entries of a map as arguments with names.
fn named(alloc: Global, entries: &Entries) -> Result<Given, AllocError>
    ensures { IfOk result (λ given. given.items ≡ map (λ e. (key_text e.0, e.1)) entries.now) }
{
    let mut given = Vec::new(alloc);
    for at in 0..entries.len() {
        let Some((key, value)) = entries.entry_at(at) else {
            unreachable!()
        };
        given.push((key_text(alloc, key)?, *value))?;
    }
    Ok(given)
}
