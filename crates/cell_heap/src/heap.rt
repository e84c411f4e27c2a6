//! The cells of a build.

ghost use Rattle.std.specs.Prelude.{◌≡◌, ◌≢◌, ◌↔◌, IsTrue, ◌+◌, ◌-◌, ◌<◌, ◌≤◌, ◌^◌, true, false, None, Some, [], ◌∷◌, ◌++◌, length, max, replicate, slice_get, slice_set, vec_len, IfOk, IfErr, OnOk, OnErr, MatchResult, IsErrOf};
ghost use Rattle.model_values.specs.Cells.{cell_bytes, heap_bytes};
ghost use Rattle.model_values.specs.Fitting.{HasText, HasVariable};
ghost use Rattle.model_values.specs.declared.cell.Cell.TheVariants.{Variable};
ghost use Rattle.cell_heap.specs.Follows.{Follows};
ghost use Rattle.cell_heap.specs.Contents.{entry_count, text_in};
ghost use Rattle.cell_heap.specs.Marks.{places};
ghost use Rattle.cell_heap.specs.Places.{place_of_character};
ghost use Rattle.cell_heap.specs.Refusals.{limit_of, new_cell_limit};
ghost use Rattle.cell_heap.specs.Soundness.{AreSound, IsSoundIn, CellBelow, ValueBelow};

use crate::CellRefusal;
use crate::changes::Changes;
use crate::contents::text_of;
use crate::indexes::TextIndexes;
use crate::refusal::{MAX_BYTES, MAX_CELLS, MAX_ENTRIES};
use crate::sizes::bytes_of;
use model_text::Ids;
use model_values::{Cell, Value};
use std::alloc::{AllocError, Global};
use std::marker::Model;

mod lists;
mod maps;

/// The cells of a build, numbered from 0.
///
/// A contract sees the list of the cells, which of them are new or were written since the last mark, and how many
/// more can be made without memory. What a cell holds names only cells that are there.
#[derive(Drop)]
pub struct Heap {
    cells: Vec<Cell>,
    changes: Changes,
    total: u64,
    indexes: TextIndexes,
}

impl Model for Heap {
    ghost use Rattle.cell_heap.specs.Region.{Region};

    ghost Value = { Region };

    ghost use Rattle.cell_heap.specs.HeapKept.{IsKept};

    ghost view = { λ h. record { cells = h.cells.items; changed = h.changes.flags; spare = h.changes.spare } };

    ghost invariant = { IsKept };
}

impl Heap {
    ghost use Rattle.cell_heap.specs.Region.{Region};

    /// No cells. It takes no memory.
    pub fn new(alloc: Global) -> Heap
        ensures { result ≡ record { cells = []; changed = []; spare = 0 } }
    {
        Heap {
            cells: Vec::new(alloc),
            changes: Changes::new(alloc),
            total: 0,
            indexes: TextIndexes::new(alloc),
        }
    }

    /// The heap of just these cells, under no limit; none of them is changed. `AllocError` where the memory was
    /// refused.
    pub fn restore(alloc: Global, cells: Vec<Cell>) -> Result<Heap, AllocError>
        requires sound { AreSound cells.items }
        requires few { vec_len cells < 2 ^ 32 }
        requires bytes { heap_bytes cells.items ≤ 2 ^ 62 }
        ensures { IfOk result (λ heap. heap ≡ record { cells = cells.items; changed = replicate (vec_len cells) false; spare = 0 }) }
    {
        let changes = Changes::unchanged(alloc, cells.len())?;
        let mut total = 0;
        for cell in &cells {
            total += bytes_of(cell);
        }
        Ok(Heap {
            cells,
            changes,
            total,
            indexes: TextIndexes::new(alloc),
        })
    }

    /// How many cells there are.
    pub fn len(&self) -> u32
        ensures len { result ≡ length self.now.cells }
        ensures sound { AreSound self.now.cells }
    {
        self.cells.len() as u32
    }

    /// Whether there is no cell.
    pub fn is_empty(&self) -> bool
        ensures { IsTrue result ↔ (self.now.cells ≡ []) }
    {
        self.cells.is_empty()
    }

    /// The heap bytes of all cells together.
    pub fn bytes(&self) -> u64
        ensures { result ≡ heap_bytes self.now.cells }
    {
        self.total
    }

    /// The cell with this number.
    pub fn get(&self, id: u32) -> &Cell
        requires { id < length self.now.cells }
        ensures cell { slice_get self.now.cells id ≡ Some result.now }
        ensures sound { IsSoundIn (length self.now.cells) result.now }
    {
        &self.cells[id as usize]
    }

    /// The byte at which this character of the text in this cell begins, counted from 0, and behind the last character
    /// the length. No cell changes.
    ///
    /// It goes over fewer than 64 characters, from an entry of the text's index, whatever was asked for before. The
    /// index is made longer first, which goes over each byte in front of `at` once in the life of the heap. It takes
    /// 8 bytes for each 64 characters; the list of the indexes goes up to the last text that has one, and a text of
    /// fewer than 64 bytes has none. Where memory is refused for them, the call goes over the more characters itself.
    pub fn character_at(&mut self, id: u32, at: usize) -> usize
        requires within { id < length self.old.cells }
        requires text { HasText (slice_get self.old.cells id) }
        ensures byte { result ≡ place_of_character (text_in (slice_get self.old.cells id)) at }
        ensures unchanged { self.new ≡ self.old }
    {
        let text = text_of(&self.cells[id as usize]).as_slice();
        self.indexes.place_of(id, text, at)
    }

    /// A new cell behind all others, which is changed; its number is how many there were. What it holds names cells
    /// that were there before it. Each refusal comes as it says, and then nothing has changed. While `spare` is
    /// above 0 it takes no memory.
    pub fn new_cell(&mut self, cell: Cell) -> Result<u32, CellRefusal>
        requires { CellBelow (length self.old.cells) cell }
        ensures made { IfOk result (λ id. id ≡ length self.old.cells) }
        ensures cells { OnOk result (self.new ≡ record { cells = self.old.cells ++ cell ∷ []; changed = self.old.changed ++ true ∷ []; spare = self.old.spare - 1 }) }
        ensures refusal { MatchResult result (λ _. new_cell_limit self.old.cells cell ≡ None) (λ refusal. new_cell_limit self.old.cells cell ≡ limit_of refusal) }
        ensures room { IsErrOf result CellRefusal.Memory → self.old.spare ≡ 0 }
        ensures unchanged { OnErr result (self.new ≡ self.old) }
        ensures follows { Follows self.old self.new }
    {
        let bytes = self.admitted_bytes(&cell)?;
        self.reserve(1)?;
        let id = self.cells.len() as u32;
        self.cells.push_reserved(cell);
        self.changes.push();
        self.total += bytes;
        Ok(id)
    }

    /// The heap bytes of a cell that is to be new, or the limit that it would pass.
    fn admitted_bytes(&self, cell: &Cell) -> Result<u64, CellRefusal>
        ensures bytes { IfOk result (λ bytes. bytes ≡ cell_bytes cell.now) }
        ensures refusal { MatchResult result (λ _. new_cell_limit self.now.cells cell.now ≡ None) (λ refusal. new_cell_limit self.now.cells cell.now ≡ limit_of refusal) }
        ensures few { OnOk result (length self.now.cells < 1048576) }
        ensures small { IfOk result (λ bytes. heap_bytes self.now.cells + bytes ≤ 268435456) }
        ensures limits { IfErr result (λ refusal. refusal ≢ CellRefusal.Memory) }
    {
        if entry_count(cell) > MAX_ENTRIES {
            return Err(CellRefusal::Entries);
        }
        if self.cells.len() >= MAX_CELLS {
            return Err(CellRefusal::Cells);
        }
        let bytes = bytes_of(cell);
        if self.total.saturating_add(bytes) > MAX_BYTES {
            return Err(CellRefusal::Bytes);
        }
        Ok(bytes)
    }

    /// Makes room for so many cells more, under no limit: the next `more` calls of `new_cell` take no memory.
    /// `AllocError` where the memory was refused: then all is as before.
    pub fn reserve(&mut self, more: u32) -> Result<(), AllocError>
        ensures ok { OnOk result (self.new ≡ record self.old { spare = max self.old.spare more }) }
        ensures err { OnErr result (self.new ≡ self.old) }
        ensures full { OnErr result (self.old.spare < more) }
    {
        self.cells.reserve(more as usize)?;
        self.changes.reserve(more)
    }

    /// Puts a value into a variable, which is changed then. It takes no memory.
    pub fn set(&mut self, id: u32, value: Value)
        requires within { id < length self.old.cells }
        requires variable { HasVariable (slice_get self.old.cells id) }
        requires below { ValueBelow (length self.old.cells) value }
        ensures set { self.new ≡ record self.old { cells = slice_set self.old.cells id (Variable value); changed = slice_set self.old.changed id true } }
        ensures follows { Follows self.old self.new }
    {
        self.cells[id as usize] = Cell::Variable(value);
        self.changes.set(id);
    }

    /// From now on no cell is changed. It takes no memory, and the time of the number of the changed cells.
    pub fn mark(&mut self)
        ensures { self.new ≡ record self.old { changed = replicate (length self.old.cells) false } }
    {
        self.changes.clear();
    }

    /// The rising numbers of the cells that are new or were written since the last `mark`, or since the heap was
    /// made. It takes the time of a sort of these. `AllocError` where the memory was refused.
    pub fn changed_since(&self) -> Result<Ids, AllocError>
        ensures listed { IfOk result (λ ids. ids ≡ places self.now.changed) }
        ensures marked { length self.now.changed ≡ length self.now.cells }
    {
        self.changes.numbers()
    }
}

/// How many entries a list or a map has, and 0 for another cell.
fn entry_count(cell: &Cell) -> usize
    ensures { result ≡ entry_count cell.now }
{
    match cell {
        Cell::List(values) => values.len(),
        Cell::Map(entries) => entries.len(),
        _ => 0,
    }
}
