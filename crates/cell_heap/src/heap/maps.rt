//! The maps of a heap.

ghost use Rattle.std.specs.Prelude.{◌≡◌, ◌+◌, ◌<◌, ◌≤◌, ◌^◌, true, None, length, slice_get, slice_set, IfOk, OnOk, OnErr, OnSome, IfNone, MatchResult};
ghost use Rattle.std.specs.Map.{lookup, remove_entry};
ghost use Rattle.indexmap.specs.IndexMap.{insert_entry};
ghost use Rattle.model_values.specs.Keys.{same_key};
ghost use Rattle.model_values.specs.Fitting.{HasMap};
ghost use Rattle.model_values.specs.declared.cell.Cell.TheVariants.{Map as MapCell};
ghost use Rattle.cell_heap.specs.Follows.{Follows};
ghost use Rattle.cell_heap.specs.Contents.{pairs_in};
ghost use Rattle.cell_heap.specs.Refusals.{added_bytes, limit_of, map_put_limit, put_limit};
ghost use Rattle.cell_heap.specs.Soundness.{ValueBelow};

use crate::contents::{pairs_of, put, remove};
use crate::refusal::{MAX_BYTES, MAX_ENTRIES};
use crate::sizes::pair_bytes;
use crate::{CellRefusal, Heap};
use model_values::{Entries, Key, Value};

impl Heap {
    /// Gives a key of the map in this cell a value, in its place where it is there, else behind all others; the cell
    /// is changed then. Gives the value that the key had. Each refusal comes as it says, a limit only where the key
    /// is new, and then nothing has changed.
    pub fn map_put(&mut self, id: u32, key: Key, value: Value) -> Result<Option<Value>, CellRefusal>
        requires within { id < length self.old.cells }
        requires map { HasMap (slice_get self.old.cells id) }
        requires below { ValueBelow (length self.old.cells) value }
        ensures old { IfOk result (λ old. old ≡ lookup (same_key key) (pairs_in (slice_get self.old.cells id))) }
        ensures put { OnOk result (self.new ≡ record self.old { cells = slice_set self.old.cells id (MapCell (insert_entry same_key (pairs_in (slice_get self.old.cells id)) key value)); changed = slice_set self.old.changed id true }) }
        ensures refusal { MatchResult result (λ _. map_put_limit self.old.cells (pairs_in (slice_get self.old.cells id)) key ≡ None) (λ refusal. map_put_limit self.old.cells (pairs_in (slice_get self.old.cells id)) key ≡ limit_of refusal) }
        ensures unchanged { OnErr result (self.new ≡ self.old) }
        ensures follows { Follows self.old self.new }
    {
        let added = added_bytes(self.total, pairs_of(&self.cells[id as usize]), &key)?;
        let old = put(&mut self.cells[id as usize], key, value)?;
        self.changes.set(id);
        self.total += added;
        Ok(old)
    }

    /// Takes the entry with this key out of the map in this cell, which is changed then, and gives its value. `None`
    /// exactly where no entry has the key; then nothing has changed. The other entries keep their order. It takes no
    /// memory, and the time of the entries behind it.
    pub fn map_remove(&mut self, id: u32, key: &Key) -> Option<Value>
        requires within { id < length self.old.cells }
        requires map { HasMap (slice_get self.old.cells id) }
        ensures value { result ≡ lookup (same_key key.now) (pairs_in (slice_get self.old.cells id)) }
        ensures removed { OnSome result (self.new ≡ record self.old { cells = slice_set self.old.cells id (MapCell (remove_entry (same_key key.now) (pairs_in (slice_get self.old.cells id)))); changed = slice_set self.old.changed id true }) }
        ensures absent { IfNone result (self.new ≡ self.old) }
        ensures follows { Follows self.old self.new }
    {
        let old = pairs_of(&self.cells[id as usize]).get(key)?;
        remove(&mut self.cells[id as usize], key);
        self.changes.set(id);
        self.total -= pair_bytes(key);
        Some(old)
    }
}

/// The heap bytes that a value for a key adds to a map in a heap of so many bytes, or the limit that they would pass.
fn added_bytes(bytes: u64, entries: &Entries, key: &Key) -> Result<u64, CellRefusal>
    requires { bytes ≤ 2 ^ 62 }
    ensures added { IfOk result (λ added. added ≡ added_bytes key.now (lookup (same_key key.now) entries.now)) }
    ensures refusal { MatchResult result (λ _. put_limit bytes entries.now key.now (lookup (same_key key.now) entries.now) ≡ None) (λ refusal. put_limit bytes entries.now key.now (lookup (same_key key.now) entries.now) ≡ limit_of refusal) }
    ensures bounded { IfOk result (λ added. bytes + added ≤ 2 ^ 62) }
{
    if entries.get(key).is_some() {
        return Ok(0);
    }
    if entries.len() >= MAX_ENTRIES {
        return Err(CellRefusal::Entries);
    }
    let added = pair_bytes(key);
    if bytes.saturating_add(added) > MAX_BYTES {
        return Err(CellRefusal::Bytes);
    }
    Ok(added)
}
