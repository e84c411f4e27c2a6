//! Indexes of texts, by which each character is soon found.

ghost use Rattle.std.specs.Prelude.{◌≡◌, ◌≢◌, ◌≤◌, ℕ, [], ◌∷◌, length, slice_index, slice_index_or};
ghost use Rattle.cell_heap.specs.Places.{IsIndexOf, place_of_character};

use crate::characters::place_of_character;
use std::alloc::Global;
use std::marker::Model;

/// An index has an entry for each so many characters of its text.
const STEP: usize = 64;

/// The bytes at which the characters of a text that number 64, 128, 192 and so on begin, as far as the text has been
/// gone over.
///
/// A contract sees the list of these bytes.
#[derive(Drop)]
struct TextIndex {
    bytes: Vec<usize>,
}

impl Model for TextIndex {
    ghost use Rattle.std.specs.Prelude.{ℕ, List};

    ghost Value = { List ℕ };

    ghost view = { λ index. index.bytes.items };
}

impl TextIndex {
    /// One with no entry. It takes no memory.
    fn new(alloc: Global) -> TextIndex
        ensures { result ≡ [] }
    {
        TextIndex {
            bytes: Vec::new(alloc),
        }
    }

    /// The byte at which the character of the number 64 times `count` begins.
    fn start(&self, count: usize) -> usize
        requires { count ≤ length self.now }
        ensures { result ≡ slice_index (0 ∷ self.now) count }
    {
        if count == 0 {
            return 0;
        }
        self.bytes[count - 1]
    }

    /// The byte at which this character of its text begins, and behind the last one the length. It goes over the bytes
    /// behind the last entry that is not behind the character.
    fn place_of(&self, text: &[u8], at: usize) -> usize
        requires { IsIndexOf text.now self.now }
        ensures { result ≡ place_of_character text.now at }
    {
        let count = self.bytes.len().min(at / STEP);
        let start = self.start(count);
        start + place_of_character(&text[start..], at - count * STEP)
    }

    /// Makes it longer, up to this character of its text. It goes once over the bytes behind its last entry. Where
    /// memory is refused it ends there.
    fn lengthen(&mut self, text: &[u8], at: usize)
        requires { IsIndexOf text.now self.old }
        ensures { IsIndexOf text.now self.new }
    {
        while self.bytes.len() < at / STEP {
            let next = self.place_of(text, (self.bytes.len() + 1) * STEP);
            if self.bytes.push(next).is_err() {
                return;
            }
        }
    }
}

/// The indexes of the texts of a heap, by the numbers of their cells. One that is not there has no entry.
#[derive(Drop)]
pub(crate) struct TextIndexes {
    by_cell: Vec<TextIndex>,
}

impl TextIndexes {
    /// None. It takes no memory.
    pub(crate) fn new(alloc: Global) -> TextIndexes
        ensures { result.by_cell.items ≡ [] }
    {
        TextIndexes {
            by_cell: Vec::new(alloc),
        }
    }

    /// The byte at which this character of the text in this cell begins, and behind the last one the length.
    pub(crate) fn place_of(&mut self, cell: u32, text: &[u8], at: usize) -> usize
        requires { IsIndexOf text.now (slice_index_or self.old.by_cell.items cell []) }
        ensures place { result ≡ place_of_character text.now at }
        ensures index { IsIndexOf text.now (slice_index_or self.new.by_cell.items cell []) }
        ensures others { (i : ℕ) → i ≢ cell → slice_index_or self.new.by_cell.items i [] ≡ slice_index_or self.old.by_cell.items i [] }
    {
        let within = at.min(text.len());
        if within >= STEP {
            self.make_room(cell);
        }
        match self.by_cell.get_mut(cell as usize) {
            Some(index) => {
                index.lengthen(text, within);
                index.place_of(text, at)
            }
            None => place_of_character(text, at),
        }
    }

    /// Makes the list longer by indexes with no entry, up to the one of this cell. Where memory is refused it ends
    /// there.
    fn make_room(&mut self, cell: u32)
        ensures { (i : ℕ) → slice_index_or self.new.by_cell.items i [] ≡ slice_index_or self.old.by_cell.items i [] }
    {
        let alloc = *self.by_cell.allocator();
        while self.by_cell.len() <= cell as usize {
            if self.by_cell.push(TextIndex::new(alloc)).is_err() {
                return;
            }
        }
    }
}
