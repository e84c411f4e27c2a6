//! What a value is.

ghost use Rattle.std.specs.Prelude.{◌≡◌, length};
ghost use Rattle.cell_heap.specs.Soundness.{ValueBelow};
ghost use Rattle.model_values.specs.Kinds.{kind, kind_name};
ghost use Rattle.value_view.specs.Seen.{IsKindIn, seen};

use cell_heap::Heap;
use model_text::Text;
use model_values::{Cell, Class, Entries, Value, Values};

/// What a value is, with what its cell holds: the cases of every operator and method.
#[derive(Drop)]
pub enum Kind<'a> {
    Null,
    Flag(bool),
    Number(i32),
    Text(&'a Text),
    /// A list and the number of its cell.
    List(u32, &'a Values),
    /// A map and the number of its cell.
    Map(u32, &'a Entries),
    /// The closure in this cell.
    Closure(u32),
    /// The throwable in this cell, with its class and its message, if it has one.
    Thrown(u32, Class, &'a Option<Text>),
}

/// What a value is. The number of a variable's cell is no value of a script: it is `Null`.
pub fn kind_of<'a>(heap: &'a Heap, value: &Value) -> Kind<'a>
    requires { ValueBelow (length heap.now.cells) value.now }
    ensures kind { seen result ≡ kind heap.now.cells value.now }
    ensures sound { IsKindIn (length heap.now.cells) result }
{
    match value {
        Value::Null => Kind::Null,
        Value::Bool(flag) => Kind::Flag(*flag),
        Value::Int(number) => Kind::Number(*number),
        Value::Cell(id) => match heap.get(*id) {
            Cell::Variable(_) => Kind::Null,
            Cell::Text(text) => Kind::Text(text),
            Cell::List(values) => Kind::List(*id, values),
            Cell::Map(entries) => Kind::Map(*id, entries),
            Cell::Closure { .. } => Kind::Closure(*id),
            Cell::Thrown { class, message } => Kind::Thrown(*id, *class, message),
        },
    }
}

impl Kind<'_> {
    /// The class that messages name for it, in Java or Groovy; nothing for null, whose messages name none.
    pub fn name(&self) -> &'static str
        ensures { result.now ≡ kind_name (seen self.now) }
    {
        match self {
            Kind::Null => "",
            Kind::Flag(_) => "java.lang.Boolean",
            Kind::Number(_) => "java.lang.Integer",
            Kind::Text(_) => "java.lang.String",
            Kind::List(_, _) => "java.util.ArrayList",
            Kind::Map(_, _) => "java.util.LinkedHashMap",
            Kind::Closure(_) => "groovy.lang.Closure",
            Kind::Thrown(_, class, _) => class.name(),
        }
    }
}
