//! Whether two parts of images are the same.

ghost use Rattle.std.specs.Prelude.{◌≡◌, ◌↔◌, ◌<◌, ◌≤◌, IsTrue, Some, length, option_map, slice_get, take};
ghost use Rattle.std.specs.Map.Iter.{deref_pair};

use image_form::ImageFrame;
use model_text::{Pair, Sequence, Text};
use model_values::{Binding, Cell, Entries, Env, Key, Value};

/// What can be compared.
pub(crate) trait Same {
    /// Whether both are the same.
    fn is_same(&self, other: &Self) -> bool
        ensures { IsTrue result ↔ (self.now ≡ other.now) };
}

impl Same for u32 {
    fn is_same(&self, other: &u32) -> bool {
        *self == *other
    }
}

impl Same for Value {
    fn is_same(&self, other: &Value) -> bool {
        *self == *other
    }
}

impl Same for u8 {
    fn is_same(&self, other: &u8) -> bool {
        *self == *other
    }
}

impl Same for Text {
    fn is_same(&self, other: &Text) -> bool {
        self == other
    }
}

impl Same for Pair {
    fn is_same(&self, other: &Pair) -> bool {
        self == other
    }
}

impl Same for Binding {
    fn is_same(&self, other: &Binding) -> bool {
        self == other
    }
}

impl Same for Option<Text> {
    fn is_same(&self, other: &Option<Text>) -> bool {
        self == other
    }
}

impl Same for Env {
    fn is_same(&self, other: &Env) -> bool {
        self == other
    }
}

impl<T: Same> Same for Sequence<T> {
    fn is_same(&self, other: &Sequence<T>) -> bool {
        are_same(self.as_slice(), other.as_slice())
    }
}

impl Same for Key {
    fn is_same(&self, other: &Key) -> bool {
        match (self, other) {
            (Key::Int(a), Key::Int(b)) => *a == *b,
            (Key::Text(a), Key::Text(b)) => a == b,
            _ => false,
        }
    }
}

impl Same for Cell {
    fn is_same(&self, other: &Cell) -> bool {
        match (self, other) {
            (Cell::Variable(a), Cell::Variable(b)) => *a == *b,
            (Cell::Text(a), Cell::Text(b)) => a == b,
            (Cell::List(a), Cell::List(b)) => a.is_same(b),
            (Cell::Map(a), Cell::Map(b)) => a.is_same(b),
            (Cell::Closure { node: a, env: seen }, Cell::Closure { node: b, env: sees }) => {
                *a == *b && seen.is_same(sees)
            }
            (
                Cell::Thrown {
                    class: a,
                    message: said,
                },
                Cell::Thrown {
                    class: b,
                    message: says,
                },
            ) => *a == *b && said.is_same(says),
            _ => false,
        }
    }
}

impl Same for Entries {
    fn is_same(&self, other: &Entries) -> bool {
        self.len() == other.len() && begins_with(other, self)
    }
}

/// Whether the first entries of a map are those of another, which has no others.
pub(crate) fn begins_with(entries: &Entries, front: &Entries) -> bool
    ensures { IsTrue result ↔ (take (length front.now) entries.now ≡ front.now) }
{
    if entries.len() < front.len() {
        return false;
    }
    for place in 0..front.len() {
        if !is_same_entry(front.entry_at(place), entries.entry_at(place)) {
            return false;
        }
    }
    true
}

/// Whether both entries are the same.
fn is_same_entry(one: Option<(&Key, &Value)>, other: Option<(&Key, &Value)>) -> bool
    ensures { IsTrue result ↔ (option_map deref_pair one.entry ≡ option_map deref_pair other.entry) }
{
    match (one, other) {
        (Some((key, value)), Some((other_key, other_value))) => {
            key.is_same(other_key) && value.is_same(other_value)
        }
        (None, None) => true,
        _ => false,
    }
}

impl Same for ImageFrame {
    fn is_same(&self, other: &ImageFrame) -> bool {
        is_same_place(self, other)
            && self.env.is_same(&other.env)
            && self.values.is_same(&other.values)
    }
}

/// Whether both frames stand at the same place.
fn is_same_place(one: &ImageFrame, other: &ImageFrame) -> bool
    ensures { IsTrue result ↔ ((one.now.kind ≡ other.now.kind) × (one.now.node ≡ other.now.node) × (one.now.at ≡ other.now.at)) }
{
    (one.kind, one.node, one.at) == (other.kind, other.node, other.at)
}

/// Whether both lists are the same.
pub(crate) fn are_same<T: Same>(had: &[T], has: &[T]) -> bool
    ensures { IsTrue result ↔ (had.now ≡ has.now) }
{
    had.len() == has.len() && common_length(had, has) == has.len()
}

/// How many items in front are the same.
pub(crate) fn common_length<T: Same>(had: &[T], has: &[T]) -> usize
    ensures same { take result had.now ≡ take result has.now }
    ensures within { (result ≤ length had.now) × (result ≤ length has.now) }
    ensures most { result < length had.now → slice_get had.now result ≡ slice_get has.now result → ⊥ }
{
    for (place, item) in has.iter().enumerate() {
        if !is_at(had, place, item) {
            return place;
        }
    }
    has.len()
}

/// Whether the same item stands at this place.
pub(crate) fn is_at<T: Same>(items: &[T], place: usize, item: &T) -> bool
    ensures { IsTrue result ↔ (slice_get items.now place ≡ Some item.now) }
{
    items.get(place).is_some_and(|old| old.is_same(item))
}
