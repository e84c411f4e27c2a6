//! The throws of the tables, each with its class and message. None of them changes a cell: `perform` does.

ghost use Rattle.std.specs.Prelude.{◌≡◌, ℕ, ◌++◌, codes, length, IfOk};
ghost use Rattle.std.specs.Option.{ForSome};
ghost use Rattle.cell_heap.specs.Soundness.{ValueBelow};
ghost use Rattle.model_values.specs.Cells.{throw};
ghost use Rattle.model_values.specs.Limits.{product_limits};
ghost use Rattle.model_values.specs.Throws.{no_method, no_property, no_property_to_set, unknown_name, unknown_step, outside, bad_key, bad_argument, by_zero, empty_list, no_number, throw_kind, throw_value, new_throwable};
ghost use Rattle.value_view.specs.Answers.{Answers, Leaves};
ghost use Rattle.value_ops.specs.Effects.{EffectBelow, HasAnswer, NamesNone};
ghost use Rattle.value_view.specs.Seen.{IsKindIn, seen};

use crate::effect::make;
use crate::{Effect, perform};
use cell_heap::Heap;
use itoa::Buffer;
use model_text::Text;
use model_values::{Cell, Class, Value};
use std::alloc::{AllocError, Global};
use value_view::{Kind, OpRefusal, kind_of, text_of};

/// A kind has no method of this name, or none with that number of arguments. As methods the operators are `plus`,
/// `minus`, `multiply`, `mod`, `compareTo`, `negative`, `positive` and `rangeTo`, and an index is `getAt` and `putAt`.
pub fn no_method(alloc: Global, on: &Kind<'_>, name: &[u8]) -> Result<Effect, AllocError>
    ensures answer { IfOk result (HasAnswer (λ h. no_method product_limits h (seen on.now) name.now)) }
    ensures below { IfOk result NamesNone }
{
    match on {
        Kind::Null => thrown_around(
            alloc,
            Class::NullPointer,
            "Cannot invoke method ",
            name,
            "() on null object",
        ),
        _ => {
            let message = missing_method(alloc, on.name(), name)?;
            Ok(Effect::Throw(Class::MissingMethod, message))
        }
    }
}

/// A kind has no property of this name to be read.
pub fn no_property(alloc: Global, on: &Kind<'_>, name: &[u8]) -> Result<Effect, AllocError>
    ensures answer { IfOk result (HasAnswer (λ h. no_property product_limits h (seen on.now) name.now)) }
    ensures below { IfOk result NamesNone }
{
    match on {
        Kind::Null => thrown_around(
            alloc,
            Class::NullPointer,
            "Cannot get property '",
            name,
            "' on null object",
        ),
        _ => {
            let message = missing_property(alloc, on.name(), name)?;
            Ok(Effect::Throw(Class::MissingProperty, message))
        }
    }
}

/// A kind has no property of this name to be written.
pub fn no_property_to_set(alloc: Global, on: &Kind<'_>, name: &[u8]) -> Result<Effect, AllocError>
    ensures answer { IfOk result (HasAnswer (λ h. no_property_to_set product_limits h (seen on.now) name.now)) }
    ensures below { IfOk result NamesNone }
{
    match on {
        Kind::Null => thrown_around(
            alloc,
            Class::NullPointer,
            "Cannot set property '",
            name,
            "' on null object",
        ),
        _ => {
            let message = missing_property(alloc, on.name(), name)?;
            Ok(Effect::Throw(Class::MissingProperty, message))
        }
    }
}

/// A name that is read is no variable.
pub fn unknown_name(alloc: Global, name: &[u8]) -> Result<Effect, AllocError>
    ensures answer { IfOk result (HasAnswer (λ h. unknown_name product_limits h name.now)) }
    ensures below { IfOk result NamesNone }
{
    thrown_around(
        alloc,
        Class::MissingProperty,
        "No such property: ",
        name,
        " for class: WorkflowScript",
    )
}

/// A name that is called is neither a variable, a function nor a step.
pub fn unknown_step(alloc: Global, name: &[u8]) -> Result<Effect, AllocError>
    ensures answer { IfOk result (HasAnswer (λ h. unknown_step product_limits h name.now)) }
    ensures below { IfOk result NamesNone }
{
    thrown_around(
        alloc,
        Class::NoSuchMethodError,
        "No such DSL method '",
        name,
        "' found among steps",
    )
}

/// An index or a position is outside of so many entries or characters.
pub fn outside(alloc: Global, index: i32, count: usize) -> Result<Effect, AllocError>
    ensures answer { IfOk result (HasAnswer (λ h. outside product_limits h index count)) }
    ensures below { IfOk result NamesNone }
{
    let mut buffer = Buffer::new();
    let mut message = around(alloc, "index ", buffer.format(index).as_bytes(), " of ")?;
    message.append(buffer.format(count).as_bytes())?;
    Ok(Effect::Throw(Class::IndexOutOfBounds, message))
}

/// A value is no key of a map.
pub fn bad_key(alloc: Global) -> Result<Effect, AllocError>
    ensures answer { IfOk result (HasAnswer (λ h. bad_key product_limits h)) }
    ensures below { IfOk result NamesNone }
{
    thrown(alloc, Class::IllegalArgument, "bad map key")
}

/// An argument is of a wrong kind.
pub fn bad_argument(alloc: Global) -> Result<Effect, AllocError>
    ensures answer { IfOk result (HasAnswer (λ h. bad_argument product_limits h)) }
    ensures below { IfOk result NamesNone }
{
    thrown(alloc, Class::IllegalArgument, "bad argument")
}

/// A division is by zero.
pub fn by_zero(alloc: Global) -> Result<Effect, AllocError>
    ensures answer { IfOk result (HasAnswer (λ h. by_zero product_limits h)) }
    ensures below { IfOk result NamesNone }
{
    thrown(alloc, Class::Arithmetic, "/ by zero")
}

/// A list has no first or last entry.
pub fn empty_list(alloc: Global) -> Result<Effect, AllocError>
    ensures answer { IfOk result (HasAnswer (λ h. empty_list product_limits h)) }
    ensures below { IfOk result NamesNone }
{
    thrown(alloc, Class::NoSuchElement, "empty list")
}

/// A text is no whole number.
pub fn no_number(alloc: Global, text: &[u8]) -> Result<Effect, AllocError>
    ensures answer { IfOk result (HasAnswer (λ h. no_number product_limits h text.now)) }
    ensures below { IfOk result NamesNone }
{
    thrown_around(
        alloc,
        Class::NumberFormat,
        "For input string: \"",
        text,
        "\"",
    )
}

/// The statement `throw`: a throwable itself is thrown; of any other value it is thrown that it is none.
pub fn throw_value(alloc: Global, heap: &mut Heap, value: &Value) -> Result<Value, OpRefusal>
    requires { ValueBelow (length heap.old.cells) value.now }
    ensures answer { Answers (throw_value product_limits heap.old.cells value.now) heap.old heap.new result }
    ensures leaves { Leaves heap.old heap.new result }
{
    let effect = thrown_again(alloc, &kind_of(heap, value))?;
    perform(heap, effect)
}

/// A throwable itself is thrown.
fn thrown_again(alloc: Global, on: &Kind<'_>) -> Result<Effect, AllocError>
    ensures answer { IfOk result (HasAnswer (λ h. throw_kind product_limits h (seen on.now))) }
    ensures below { (n : ℕ) → IsKindIn n on.now → IfOk result (EffectBelow n) }
{
    match on {
        Kind::Thrown(cell, _, _) => Ok(Effect::ThrowAgain(*cell)),
        _ => thrown(alloc, Class::IllegalArgument, "not a throwable"),
    }
}

/// `new C(value)`: a new throwable with the text of the value as its message, or with none.
pub fn new_throwable(
    alloc: Global,
    heap: &mut Heap,
    class: Class,
    value: Option<Value>,
) -> Result<Value, OpRefusal>
    requires { ForSome value (ValueBelow (length heap.old.cells)) }
    ensures answer { Answers (new_throwable product_limits heap.old.cells class value) heap.old heap.new result }
    ensures leaves { Leaves heap.old heap.new result }
{
    let message = match value {
        None => None,
        Some(value) => Some(text_of(alloc, heap, &value)?),
    };
    make(heap, Cell::Thrown { class, message })
}

/// Throws a new throwable with this message.
fn thrown(alloc: Global, class: Class, message: &str) -> Result<Effect, AllocError>
    ensures answer { IfOk result (HasAnswer (λ h. throw product_limits h class message.now)) }
    ensures below { IfOk result NamesNone }
{
    let message = Text::from_str(alloc, message)?;
    Ok(Effect::Throw(class, message))
}

/// Throws a new throwable whose message is a name with a text in front and a text behind.
fn thrown_around(
    alloc: Global,
    class: Class,
    front: &str,
    name: &[u8],
    back: &str,
) -> Result<Effect, AllocError>
    ensures answer { IfOk result (HasAnswer (λ h. throw product_limits h class (front.now ++ name.now ++ back.now))) }
    ensures below { IfOk result NamesNone }
{
    let message = around(alloc, front, name, back)?;
    Ok(Effect::Throw(class, message))
}

/// A name with a text in front and a text behind.
fn around(alloc: Global, front: &str, name: &[u8], back: &str) -> Result<Text, AllocError>
    ensures { IfOk result (λ text. text ≡ front.now ++ name.now ++ back.now) }
{
    let mut text = Text::from_str(alloc, front)?;
    text.append(name)?;
    text.append(back.as_bytes())?;
    Ok(text)
}

fn missing_method(alloc: Global, kind: &str, name: &[u8]) -> Result<Text, AllocError>
    ensures { IfOk result (λ text. text ≡ codes "No signature of method: " ++ kind.now ++ codes "." ++ name.now ++ codes "()") }
{
    let mut text = around(alloc, "No signature of method: ", kind.as_bytes(), ".")?;
    text.append(name)?;
    text.append(b"()")?;
    Ok(text)
}

fn missing_property(alloc: Global, kind: &str, name: &[u8]) -> Result<Text, AllocError>
    ensures { IfOk result (λ text. text ≡ codes "No such property: " ++ name.now ++ codes " for class: " ++ kind.now) }
{
    let mut text = around(alloc, "No such property: ", name, " for class: ")?;
    text.append(kind.as_bytes())?;
    Ok(text)
}
