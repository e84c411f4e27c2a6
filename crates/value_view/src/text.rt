//! The text of a value, written behind another text up to the limit.

ghost use Rattle.std.specs.Prelude.{◌≡◌, [], length};
ghost use Rattle.std.specs.Fmt.{signed_decimal};
ghost use Rattle.std.specs.List.{All};
ghost use Rattle.cell_heap.specs.Soundness.{ValueBelow};
ghost use Rattle.model_values.specs.Limits.{product_limits};
ghost use Rattle.model_values.specs.TextOf.{behind, text_behind, text_of, text_within};
ghost use Rattle.model_values.specs.Throwables.{thrown_text};
ghost use Rattle.value_view.specs.Answers.{Writes, IsWritten};
ghost use Rattle.value_view.specs.Depth.{entries_inside, entry_behind, item_behind, key_front, separated, text_here, values_inside};

use crate::{Kind, OpRefusal, kind_of};
use cell_heap::Heap;
use itoa::Buffer;
use model_text::Text;
use model_values::{Class, Entries, Key, LimitKind, Value};
use std::alloc::Global;

/// The most bytes of a text.
pub const MAX_TEXT: usize = 1048576;

/// How many lists and maps may stand inside each other.
pub(crate) const MAX_DEPTH: u32 = 64;

/// The text of a value. `Limit` where it would have more bytes, or more lists and maps inside each other, than the
/// limits allow, whichever comes first in the order of its bytes; no longer text is built then. It throws nothing.
pub fn text_of(alloc: Global, heap: &Heap, value: &Value) -> Result<Text, OpRefusal>
    requires { ValueBelow (length heap.now.cells) value.now }
    ensures { IsWritten (text_of product_limits heap.now.cells value.now) result }
{
    let mut text = Text::new(alloc);
    write_value(heap, value, &mut text)?;
    Ok(text)
}

/// Writes the text of a value behind a text. After a refusal that text is not finished.
pub fn write_value(heap: &Heap, value: &Value, text: &mut Text) -> Result<(), OpRefusal>
    requires { ValueBelow (length heap.now.cells) value.now }
    ensures { Writes (text_behind product_limits heap.now.cells value.now text.old) text.new result }
{
    write_within(heap, value, MAX_DEPTH, text)
}

/// Writes bytes behind a text. After a refusal it is as it was.
pub fn write_bytes(bytes: &[u8], text: &mut Text) -> Result<(), OpRefusal>
    ensures { Writes (behind product_limits [] bytes.now text.old) text.new result }
{
    if text.len().saturating_add(bytes.len()) > MAX_TEXT {
        return Err(OpRefusal::Limit(LimitKind::TextLength));
    }
    text.append(bytes)?;
    Ok(())
}

/// Writes a whole number in decimal.
fn write_number(number: i32, text: &mut Text) -> Result<(), OpRefusal>
    ensures { Writes (behind product_limits [] (signed_decimal number) text.old) text.new result }
{
    write_bytes(Buffer::new().format(number).as_bytes(), text)
}

/// Writes a throwable: its class, and its message behind it where it has one.
fn write_thrown(class: Class, message: &Option<Text>, text: &mut Text) -> Result<(), OpRefusal>
    ensures { Writes (behind product_limits [] (thrown_text class message.now) text.old) text.new result }
{
    write_bytes(class.name().as_bytes(), text)?;
    match message {
        None => Ok(()),
        Some(message) => {
            write_bytes(b": ", text)?;
            write_bytes(message.as_slice(), text)
        }
    }
}

/// Writes what stands between a value of a list and the one before it.
fn write_separator(is_first: bool, text: &mut Text) -> Result<(), OpRefusal>
    ensures { Writes (separated product_limits [] is_first text.old) text.new result }
{
    if is_first {
        return Ok(());
    }
    write_bytes(b", ", text)
}

/// Writes what stands in front of the value of an entry of a map.
fn write_key(is_first: bool, key: &Key, text: &mut Text) -> Result<(), OpRefusal>
    ensures { Writes (behind product_limits [] (key_front is_first key.now) text.old) text.new result }
{
    if !is_first {
        write_bytes(b", ", text)?;
    }
    match key {
        Key::Int(number) => write_number(*number, text)?,
        Key::Text(key) => write_bytes(key.as_slice(), text)?,
    }
    write_bytes(b":", text)
}

/// Writes a value in which so many more lists and maps may stand inside each other.
#[cycle(writing)]
fn write_within(heap: &Heap, value: &Value, left: u32, text: &mut Text) -> Result<(), OpRefusal>
    requires { ValueBelow (length heap.now.cells) value.now }
    ensures { Writes (text_here product_limits heap.now.cells left value.now text.old) text.new result }
{
    match kind_of(heap, value) {
        Kind::Null => write_bytes(b"null", text),
        Kind::Flag(true) => write_bytes(b"true", text),
        Kind::Flag(false) => write_bytes(b"false", text),
        Kind::Number(number) => write_number(number, text),
        Kind::Text(bytes) => write_bytes(bytes.as_slice(), text),
        Kind::List(_, values) => {
            write_bytes(b"[", text)?;
            write_list(heap, values.as_slice(), left, text)
        }
        Kind::Map(_, entries) => {
            write_bytes(b"[", text)?;
            write_map(heap, entries, left, text)
        }
        Kind::Closure(_) => write_bytes(b"closure", text),
        Kind::Thrown(_, class, message) => write_thrown(class, message, text),
    }
}

/// Writes what stands behind the `[` of a list.
#[cycle(writing)]
fn write_list(heap: &Heap, values: &[Value], left: u32, text: &mut Text) -> Result<(), OpRefusal>
    requires { All (ValueBelow (length heap.now.cells)) values.now }
    ensures { Writes (values_inside product_limits heap.now.cells left values.now text.old) text.new result }
{
    if left == 0 {
        return Err(OpRefusal::Limit(LimitKind::ValueDepth));
    }
    for (at, value) in values.iter().enumerate() {
        write_item(heap, at == 0, value, left - 1, text)?;
    }
    write_bytes(b"]", text)
}

/// Writes a value of a list with what stands between it and the one before it.
#[cycle(writing)]
fn write_item(
    heap: &Heap,
    is_first: bool,
    value: &Value,
    left: u32,
    text: &mut Text,
) -> Result<(), OpRefusal>
    requires { ValueBelow (length heap.now.cells) value.now }
    ensures { Writes (item_behind product_limits heap.now.cells (text_within product_limits heap.now.cells left) is_first value.now text.old) text.new result }
{
    write_separator(is_first, text)?;
    write_within(heap, value, left, text)
}

/// Writes what stands behind the `[` of a map.
#[cycle(writing)]
fn write_map(heap: &Heap, entries: &Entries, left: u32, text: &mut Text) -> Result<(), OpRefusal>
    requires { All (λ entry. ValueBelow (length heap.now.cells) entry.1) entries.now }
    ensures { Writes (entries_inside product_limits heap.now.cells left entries.now text.old) text.new result }
{
    if left == 0 {
        return Err(OpRefusal::Limit(LimitKind::ValueDepth));
    }
    if entries.is_empty() {
        return write_bytes(b":]", text);
    }
    for at in 0..entries.len() {
        if let Some((key, value)) = entries.entry_at(at) {
            write_entry(heap, at == 0, key, value, left - 1, text)?;
        }
    }
    write_bytes(b"]", text)
}

/// Writes an entry of a map with what stands between it and the one before it.
#[cycle(writing)]
fn write_entry(
    heap: &Heap,
    is_first: bool,
    key: &Key,
    value: &Value,
    left: u32,
    text: &mut Text,
) -> Result<(), OpRefusal>
    requires { ValueBelow (length heap.now.cells) value.now }
    ensures { Writes (entry_behind product_limits heap.now.cells (text_within product_limits heap.now.cells left) is_first key.now value.now text.old) text.new result }
{
    write_key(is_first, key, text)?;
    write_within(heap, value, left, text)
}
