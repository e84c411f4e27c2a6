//! The lists of a heap.

ghost use Rattle.std.specs.Prelude.{◌≡◌, ◌<◌, true, None, [], ◌∷◌, ◌++◌, length, slice_get, slice_set, OnOk, OnErr, MatchResult};
ghost use Rattle.model_values.specs.Fitting.{HasList};
ghost use Rattle.model_values.specs.declared.cell.Cell.TheVariants.{List as ListCell};
ghost use Rattle.cell_heap.specs.Follows.{Follows};
ghost use Rattle.cell_heap.specs.Contents.{values_in};
ghost use Rattle.cell_heap.specs.Refusals.{limit_of, list_push_limit};
ghost use Rattle.cell_heap.specs.Soundness.{ValueBelow};

use crate::contents::{push, set, values_of};
use crate::refusal::{MAX_BYTES, MAX_ENTRIES};
use crate::sizes::LIST_ENTRY;
use crate::{CellRefusal, Heap};
use model_values::Value;

impl Heap {
    /// Puts a value behind the list in this cell, which is changed then. Each refusal comes as it says, and then
    /// nothing has changed.
    pub fn list_push(&mut self, id: u32, value: Value) -> Result<(), CellRefusal>
        requires within { id < length self.old.cells }
        requires list { HasList (slice_get self.old.cells id) }
        requires below { ValueBelow (length self.old.cells) value }
        ensures pushed { OnOk result (self.new ≡ record self.old { cells = slice_set self.old.cells id (ListCell (values_in (slice_get self.old.cells id) ++ value ∷ [])); changed = slice_set self.old.changed id true }) }
        ensures refusal { MatchResult result (λ _. list_push_limit self.old.cells (values_in (slice_get self.old.cells id)) ≡ None) (λ refusal. list_push_limit self.old.cells (values_in (slice_get self.old.cells id)) ≡ limit_of refusal) }
        ensures unchanged { OnErr result (self.new ≡ self.old) }
        ensures follows { Follows self.old self.new }
    {
        if values_of(&self.cells[id as usize]).len() >= MAX_ENTRIES {
            return Err(CellRefusal::Entries);
        }
        if self.total + LIST_ENTRY > MAX_BYTES {
            return Err(CellRefusal::Bytes);
        }
        push(&mut self.cells[id as usize], value)?;
        self.changes.set(id);
        self.total += LIST_ENTRY;
        Ok(())
    }

    /// Puts a value in the place of the entry at `at` of the list in this cell, which is changed then. It takes no
    /// memory.
    pub fn list_set(&mut self, id: u32, at: u32, value: Value)
        requires within { id < length self.old.cells }
        requires list { HasList (slice_get self.old.cells id) }
        requires entry { at < length (values_in (slice_get self.old.cells id)) }
        requires below { ValueBelow (length self.old.cells) value }
        ensures set { self.new ≡ record self.old { cells = slice_set self.old.cells id (ListCell (slice_set (values_in (slice_get self.old.cells id)) at value)); changed = slice_set self.old.changed id true } }
        ensures follows { Follows self.old self.new }
    {
        set(&mut self.cells[id as usize], at, value);
        self.changes.set(id);
    }
}
