ghost use Rattle.std.specs.Prelude.{◌≡◌, ◌↔◌, IsTrue, [], length, IfOk, OnOk, OnErr, slice_get};
ghost use Rattle.std.specs.List.{IsDistinct};
ghost use Rattle.std.specs.Prelude.{option_map};
ghost use Rattle.std.specs.Map.Iter.{deref_pair};
ghost use Rattle.std.specs.Map.{keys_of, lookup, remove_entry};
ghost use Rattle.indexmap.specs.IndexMap.{insert_entry};
ghost use Rattle.model_values.specs.Keys.{same_key};

use crate::places::Places;
use crate::{Key, Value};
use std::alloc::{AllocError, Global};
use std::marker::Model;
use std::mem::replace;

/// The entries of a map, in the order in which their keys came first. No two have the same key.
///
/// Beside them stand their places, in the order of their keys, in which a look-up halves: it compares its key with as
/// many others as the logarithm of the entries says, whatever the keys are. No key is copied for it.
///
/// A contract sees the list of its pairs of a key and a value.
#[derive(Drop)]
pub struct Entries {
    entries: Vec<(Key, Value)>,
    places: Places,
}

impl Model for Entries {
    ghost use Rattle.std.specs.Prelude.{List};
    ghost use Rattle.std.specs.Map.{keys_of};
    ghost use Rattle.model_values.specs.declared.key.Key.{Key as MapKey};
    ghost use Rattle.model_values.specs.declared.value.Value.{Value as Held};
    ghost use Rattle.model_values.specs.KeyOrder.{IsKeyOrder};

    ghost Value = { List (MapKey × Held) };

    ghost view = { λ entries. entries.entries.items };

    ghost invariant = { λ entries. IsKeyOrder (keys_of entries.entries.items) entries.places.places.items };
}

impl Entries {
    /// No entries. It takes no memory.
    pub fn new(alloc: Global) -> Entries
        ensures { result ≡ [] }
    {
        Entries {
            entries: Vec::new(alloc),
            places: Places::new(alloc),
        }
    }

    /// How many entries it has. No two of them have the same key.
    pub fn len(&self) -> usize
        ensures len { result ≡ length self.now }
        ensures distinct { IsDistinct same_key (keys_of self.now) }
    {
        self.entries.len()
    }

    /// Whether it has no entries.
    pub fn is_empty(&self) -> bool
        ensures { IsTrue result ↔ (self.now ≡ []) }
    {
        self.entries.is_empty()
    }

    /// The value of this key, and `None` exactly where no entry has it.
    pub fn get(&self, key: &Key) -> Option<Value>
        ensures { result ≡ lookup (same_key key.now) self.now }
    {
        match self.places.find(&self.entries, key) {
            Ok(spot) => Some(self.entries[self.places.get(spot)].1),
            Err(_) => None,
        }
    }

    /// The entry at this place, counted from 0, and `None` exactly at its length and behind.
    pub fn entry_at(&self, at: usize) -> Option<(&Key, &Value)>
        ensures { option_map deref_pair result ≡ slice_get self.now at }
    {
        let entry = self.entries.get(at)?;
        Some((&entry.0, &entry.1))
    }

    /// Gives a key this value: in its place where an entry has the key, else behind all others. Gives the value that
    /// the key had. `AllocError` where the memory was refused, or behind 2^32 entries: then the entries are as before.
    pub fn put(&mut self, key: Key, value: Value) -> Result<Option<Value>, AllocError>
        ensures old { IfOk result (λ old. old ≡ lookup (same_key key) self.old) }
        ensures put { OnOk result (self.new ≡ insert_entry same_key self.old key value) }
        ensures unchanged { OnErr result (self.new ≡ self.old) }
    {
        let spot = match self.places.find(&self.entries, &key) {
            Ok(spot) => {
                let at = self.places.get(spot);
                return Ok(Some(replace(&mut self.entries[at].1, value)));
            }
            Err(spot) => spot,
        };
        self.entries.reserve(1)?;
        self.places.insert(spot, self.entries.len())?;
        self.entries.push((key, value))?;
        Ok(None)
    }

    /// Takes the entry with this key out, and gives its value, or `None` exactly where no entry has it. The others
    /// keep their order. It takes no memory.
    pub fn remove(&mut self, key: &Key) -> Option<Value>
        ensures value { result ≡ lookup (same_key key.now) self.old }
        ensures rest { self.new ≡ remove_entry (same_key key.now) self.old }
    {
        let spot = match self.places.find(&self.entries, key) {
            Ok(spot) => spot,
            Err(_) => return None,
        };
        let at = self.places.remove(spot);
        Some(self.entries.remove(at).1)
    }
}

impl Clone for Entries {
    ghost is_clone = { λ entries copy. copy ≡ entries };

    fn clone(&self) -> Result<Entries, AllocError> {
        Ok(Entries {
            entries: self.entries.clone()?,
            places: self.places.clone()?,
        })
    }
}
