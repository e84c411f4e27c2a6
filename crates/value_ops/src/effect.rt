//! What an operation does once it has read its operands.

ghost use Rattle.std.specs.Prelude.{◌+◌, ◌<◌, All, length, slice_get};
ghost use Rattle.cell_heap.specs.Contents.{pairs_in, values_in};
ghost use Rattle.cell_heap.specs.Soundness.{CellBelow, ValueBelow};
ghost use Rattle.model_values.specs.Cells.{list_push, map_put, new_list, new_list_of, new_map, new_text, throw};
ghost use Rattle.model_values.specs.Fitting.{HasList, HasMap};
ghost use Rattle.model_values.specs.Limits.{product_limits};
ghost use Rattle.model_values.specs.TextMethods.{text_cells};
ghost use Rattle.value_ops.specs.Effects.{EffectBelow, effect_answer, made_cell};
ghost use Rattle.value_view.specs.Answers.{Answers, Leaves};

use crate::cells::new_cells;
use cell_heap::Heap;
use model_text::{Text, Texts};
use model_values::{Cell, Class, Entries, Key, LimitKind, Value, Values};
use value_view::{MAX_TEXT, OpRefusal};

/// The most entries of a list or a map.
pub const MAX_ENTRIES: usize = 65536;

/// What an operation does once it has read its operands: it gives a value that is there, it makes a new one, or it
/// throws. So reading needs the heap alone, and [`perform`] is the one place that changes it.
#[derive(Drop)]
pub enum Effect {
    Give(Value),
    NewText(Text),
    NewList(Values),
    /// Makes these texts, and behind them a list whose values may name them.
    NewListOf(Texts, Values),
    NewMap(Entries),
    /// Throws a new throwable with this message.
    Throw(Class, Text),
    /// Throws the throwable in this cell.
    ThrowAgain(u32),
}

/// Does what an operation has decided.
pub fn perform(heap: &mut Heap, effect: Effect) -> Result<Value, OpRefusal>
    requires { EffectBelow (length heap.old.cells) effect }
    ensures answer { Answers (effect_answer product_limits heap.old.cells effect) heap.old heap.new result }
    ensures leaves { Leaves heap.old heap.new result }
{
    match effect {
        Effect::Give(value) => Ok(value),
        Effect::NewText(text) => new_text(heap, text),
        Effect::NewList(values) => new_list(heap, values),
        Effect::NewListOf(texts, values) => new_list_of(heap, texts, values),
        Effect::NewMap(entries) => new_map(heap, entries),
        Effect::Throw(class, message) => throw(heap, class, message),
        Effect::ThrowAgain(cell) => Err(OpRefusal::Thrown(cell)),
    }
}

/// A new cell, under the limits of the heap; its number is the value.
pub(crate) fn make(heap: &mut Heap, cell: Cell) -> Result<Value, OpRefusal>
    requires { CellBelow (length heap.old.cells) cell }
    ensures answer { Answers (made_cell heap.old.cells cell) heap.old heap.new result }
    ensures leaves { Leaves heap.old heap.new result }
{
    Ok(Value::Cell(heap.new_cell(cell)?))
}

fn new_text(heap: &mut Heap, text: Text) -> Result<Value, OpRefusal>
    ensures answer { Answers (new_text product_limits heap.old.cells text) heap.old heap.new result }
    ensures leaves { Leaves heap.old heap.new result }
{
    if text.len() > MAX_TEXT {
        return Err(OpRefusal::Limit(LimitKind::TextLength));
    }
    make(heap, Cell::Text(text))
}

fn new_list(heap: &mut Heap, values: Values) -> Result<Value, OpRefusal>
    requires { All (ValueBelow (length heap.old.cells)) values }
    ensures answer { Answers (new_list product_limits heap.old.cells values) heap.old heap.new result }
    ensures leaves { Leaves heap.old heap.new result }
{
    make(heap, Cell::List(values))
}

fn new_map(heap: &mut Heap, entries: Entries) -> Result<Value, OpRefusal>
    requires { All (λ entry. ValueBelow (length heap.old.cells) entry.1) entries }
    ensures answer { Answers (new_map product_limits heap.old.cells entries) heap.old heap.new result }
    ensures leaves { Leaves heap.old heap.new result }
{
    make(heap, Cell::Map(entries))
}

/// Throws a new throwable with this message.
fn throw(heap: &mut Heap, class: Class, message: Text) -> Result<Value, OpRefusal>
    ensures answer { Answers (throw product_limits heap.old.cells class message) heap.old heap.new result }
    ensures leaves { Leaves heap.old heap.new result }
{
    if message.len() > MAX_TEXT {
        return Err(OpRefusal::Limit(LimitKind::TextLength));
    }
    let message = Some(message);
    Err(OpRefusal::Thrown(heap.new_cell(Cell::Thrown { class, message })?))
}

/// New texts, and behind them a new list: all of them or none.
fn new_list_of(heap: &mut Heap, texts: Texts, values: Values) -> Result<Value, OpRefusal>
    requires { All (ValueBelow (length heap.old.cells + length texts)) values }
    ensures answer { Answers (new_list_of product_limits heap.old.cells (text_cells texts) values) heap.old heap.new result }
    ensures leaves { Leaves heap.old heap.new result }
{
    if values.len() > MAX_ENTRIES {
        return Err(OpRefusal::Limit(LimitKind::CollectionSize));
    }
    let bytes = 16 + 16 * values.len() as u64;
    new_cells(heap, texts, Cell::List(values), bytes)
}

/// Puts a value behind the list in this cell, and gives true. It is in the table that the list may not be longer than
/// 65,536 entries.
pub fn push(heap: &mut Heap, list: u32, value: Value) -> Result<Value, OpRefusal>
    requires within { list < length heap.old.cells }
    requires list { HasList (slice_get heap.old.cells list) }
    requires below { ValueBelow (length heap.old.cells) value }
    ensures answer { Answers (list_push product_limits heap.old.cells list (values_in (slice_get heap.old.cells list)) value) heap.old heap.new result }
    ensures leaves { Leaves heap.old heap.new result }
{
    heap.list_push(list, value)?;
    Ok(Value::Bool(true))
}

/// Gives a key of the map in this cell a value, in its place where it is there, else behind all others, and gives
/// `gives`.
pub fn put(
    heap: &mut Heap,
    map: u32,
    key: Key,
    value: Value,
    gives: Value,
) -> Result<Value, OpRefusal>
    requires within { map < length heap.old.cells }
    requires map { HasMap (slice_get heap.old.cells map) }
    requires below { ValueBelow (length heap.old.cells) value }
    requires given { ValueBelow (length heap.old.cells) gives }
    ensures answer { Answers (map_put product_limits heap.old.cells map (pairs_in (slice_get heap.old.cells map)) key value gives) heap.old heap.new result }
    ensures leaves { Leaves heap.old heap.new result }
{
    heap.map_put(map, key, value)?;
    Ok(gives)
}
