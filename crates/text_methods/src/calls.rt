//! The call of a method by its name.

ghost use Rattle.std.specs.Prelude.{◌≡◌, ◌∷◌, ◌<◌, ◌^◌, [], All, IfOk, List, Some, is_some, length, map};
ghost use Rattle.cell_heap.specs.Soundness.{ValueBelow};
ghost use Rattle.method_names.specs.Names.{seen as table_method};
ghost use Rattle.model_values.specs.Kinds.{kind};
ghost use Rattle.model_values.specs.Limits.{product_limits};
ghost use Rattle.model_values.specs.Methods.{number_method, text_value, thrown_method};
ghost use Rattle.model_values.specs.TextMethods.{text_method};
ghost use Rattle.model_values.specs.declared.cell.Cell.{Cell as HeldCell};
ghost use Rattle.text_methods.specs.Calls.{CallAnswers, CallLeaves, ReadsHere, has_single, is_collection, read_method, single_call};
ghost use Rattle.model_values.specs.MethodNames.{Intdiv};
ghost use Rattle.text_methods.specs.Reads.{ReadsAlways};
ghost use Rattle.value_view.specs.Seen.{seen};

use crate::texts::{with_one_argument, with_two_arguments, without_arguments};
use crate::values::{divided, found, message_of, whole};
use cell_heap::Heap;
use method_names::Method;
use model_text::Text;
use model_values::Value;
use std::alloc::Global;
use value_ops::{Effect, perform};
use value_view::{Kind, OpRefusal, equal, kind_of, text_of};

/// `on.name(args)` where the value is no list and no map and the method takes no closure. `None` exactly where the
/// method table has no method of this name for such a value with so many arguments; then nothing has changed. Each
/// pair that `equals` compares raises the count of evaluated nodes by one; no other method changes it.
///
/// A throw and a limit come as the table says. After `Memory` every cell is as it was.
pub fn call(
    alloc: Global,
    heap: &mut Heap,
    on: &Value,
    name: &[u8],
    args: &[Value],
    count: &mut u32,
) -> Result<Option<Value>, OpRefusal>
    requires on { ValueBelow (length heap.old.cells) on.now }
    requires args { All (ValueBelow (length heap.old.cells)) args.now }
    ensures answer { CallAnswers (single_call heap.old.cells on.now name.now args.now count.old) heap.old heap.new count.old count.new result }
    ensures leaves { CallLeaves heap.old heap.new result }
    ensures named { IfOk result (λ value. is_some value ≡ has_single (kind heap.old.cells on.now) name.now (length args.now)) }
{
    let Some(method) = Method::named(name) else {
        return Ok(None);
    };
    if is_collection(&kind_of(heap, on)) {
        return Ok(None);
    }
    if let (Method::Equals, [other]) = (method, args) {
        return Ok(Some(Value::Bool(equal(heap, on, other, count)?)));
    }
    match read(alloc, heap, on, method, args)? {
        Some(effect) => Ok(Some(perform(heap, effect)?)),
        None => Ok(None),
    }
}

/// What a method does that only reads its value and arguments.
fn read(
    alloc: Global,
    heap: &Heap,
    on: &Value,
    method: Method,
    args: &[Value],
) -> Result<Option<Effect>, OpRefusal>
    requires on { ValueBelow (length heap.now.cells) on.now }
    requires args { All (ValueBelow (length heap.now.cells)) args.now }
    ensures { ReadsHere heap.now.cells (read_method heap.now.cells on.now (kind heap.now.cells on.now) (table_method method) args.now) result }
{
    if method == Method::ToString && args.is_empty() {
        return text_value(alloc, heap, on);
    }
    match kind_of(heap, on) {
        Kind::Text(text) => of_text(alloc, heap, text.as_slice(), method, args),
        Kind::Number(number) => of_number(alloc, heap, number, method, args),
        Kind::Thrown(_, _, message) => of_throwable(message, method, args),
        _ => Ok(None),
    }
}

/// The text of a value; a text gives itself back.
fn text_value(alloc: Global, heap: &Heap, on: &Value) -> Result<Option<Effect>, OpRefusal>
    requires { ValueBelow (length heap.now.cells) on.now }
    ensures { ReadsHere heap.now.cells (Some (text_value product_limits heap.now.cells on.now (kind heap.now.cells on.now))) result }
{
    match kind_of(heap, on) {
        Kind::Text(_) => Ok(Some(Effect::Give(*on))),
        _ => Ok(Some(Effect::NewText(text_of(alloc, heap, on)?))),
    }
}

fn of_text(
    alloc: Global,
    heap: &Heap,
    text: &[u8],
    method: Method,
    args: &[Value],
) -> Result<Option<Effect>, OpRefusal>
    requires few { length text.now < 2 ^ 31 }
    requires args { All (ValueBelow (length heap.now.cells)) args.now }
    ensures { ReadsHere heap.now.cells (text_method product_limits heap.now.cells text.now (table_method method) (map (kind heap.now.cells) args.now)) result }
{
    match args {
        [] => without_arguments(alloc, heap.len(), text, method),
        [argument] => {
            let argument = kind_of(heap, argument);
            with_one_argument(alloc, heap.len(), text, method, &argument)
        }
        [first, second] => {
            let first = kind_of(heap, first);
            let second = kind_of(heap, second);
            with_two_arguments(alloc, text, method, &first, &second)
        }
        _ => Ok(None),
    }
}

fn of_number(
    alloc: Global,
    heap: &Heap,
    number: i32,
    method: Method,
    args: &[Value],
) -> Result<Option<Effect>, OpRefusal>
    requires { All (ValueBelow (length heap.now.cells)) args.now }
    ensures { ReadsHere heap.now.cells (number_method product_limits heap.now.cells number (table_method method) (map (kind heap.now.cells) args.now)) result }
{
    match (method, args) {
        (Method::ToInteger, []) => Ok(Some(whole(number))),
        (Method::Intdiv, [by]) => intdiv(alloc, number, &kind_of(heap, by)),
        _ => Ok(None),
    }
}

fn intdiv(alloc: Global, number: i32, by: &Kind<'_>) -> Result<Option<Effect>, OpRefusal>
    ensures { ReadsAlways (λ h. number_method product_limits h number Intdiv (seen by.now ∷ [])) result }
{
    found(divided(alloc, number, by))
}

fn of_throwable(
    message: &Option<Text>,
    method: Method,
    args: &[Value],
) -> Result<Option<Effect>, OpRefusal>
    ensures { (h : List HeldCell) → ReadsHere h (thrown_method product_limits h message.now (table_method method) (map (kind h) args.now)) result }
{
    if method == Method::GetMessage && args.is_empty() {
        found(message_of(message))
    } else {
        Ok(None)
    }
}

/// Whether a value is a list or a map.
fn is_collection(kind: &Kind<'_>) -> bool
    ensures { result ≡ is_collection (seen kind.now) }
{
    matches!(kind, Kind::List(_, _) | Kind::Map(_, _))
}
