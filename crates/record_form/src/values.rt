//! Values of scripts, and cells.

ghost use Rattle.std.specs.Prelude.{◌≡◌, ◌<◌, length};
ghost use Rattle.field_form.specs.Cells.{entry_form};
ghost use Rattle.record_form.specs.Sizes.{size_at};

use crate::Measured;
use model_values::{Binding, Cell, Entries, Key, Outcome, Value};

impl Measured for Value {
    fn size(&self) -> u64 {
        match self {
            Value::Null | Value::Bool(_) => 1,
            Value::Int(_) | Value::Cell(_) => 5,
        }
    }
}

impl Measured for Outcome {
    fn size(&self) -> u64 {
        match self {
            Outcome::Value(value) => value.size().saturating_add(1),
            Outcome::Thrown(_) => 5,
        }
    }
}

impl Measured for Key {
    fn size(&self) -> u64 {
        match self {
            Key::Int(_) => 5,
            Key::Text(text) => text.size().saturating_add(1),
        }
    }
}

impl Measured for Binding {
    fn size(&self) -> u64 {
        self.name.size().saturating_add(4)
    }
}

impl Measured for Entries {
    fn size(&self) -> u64 {
        let count = self.len();
        let mut size = 4u64;
        for place in 0..count {
            size = size.saturating_add(entry_size(self, place));
        }
        size
    }
}

fn entry_size(entries: &Entries, place: usize) -> u64
    requires { place < length entries.now }
    ensures { result ≡ size_at entry_form entries.now place }
{
    match entries.entry_at(place) {
        None => 0,
        Some((key, value)) => key.size().saturating_add(value.size()),
    }
}

impl Measured for Cell {
    fn size(&self) -> u64 {
        match self {
            Cell::Variable(value) => value.size().saturating_add(1),
            Cell::Text(text) => text.size().saturating_add(1),
            Cell::List(values) => values.size().saturating_add(1),
            Cell::Map(entries) => entries.size().saturating_add(1),
            Cell::Closure { env, .. } => env.size().saturating_add(5),
            Cell::Thrown { message, .. } => message.size().saturating_add(2),
        }
    }
}
