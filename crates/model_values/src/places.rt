ghost use Rattle.std.specs.Prelude.{◌≡◌, ◌<◌, ◌≤◌, ◌++◌, ◌∷◌, [], length, map, insert, remove, position, slice_index, option_map, IfErr, OnOk, OnErr};
ghost use Rattle.std.specs.List.Sorted.{IsSearchInRange};
ghost use Rattle.std.specs.Map.{keys_of};
ghost use Rattle.std.specs.Result.{result_ok};
ghost use Rattle.model_values.specs.Keys.{same_key};
ghost use Rattle.model_values.specs.KeyOrder.{IsKeyOrder, place_cmp, lowered};

use crate::{Key, Value};
use std::alloc::{AllocError, Global};
use std::cmp::Ordering;

/// The places of a map's entries, in the order of the keys there.
#[derive(Clone, Drop)]
pub struct Places {
    places: Vec<u32>,
}

impl Places {
    /// No places. It takes no memory.
    pub fn new(alloc: Global) -> Places
        ensures { result.places.items ≡ [] }
    {
        Places {
            places: Vec::new(alloc),
        }
    }

    /// Where the place stands at which the entries have this key, or else where a place behind theirs would stand.
    pub fn find(&self, entries: &[(Key, Value)], key: &Key) -> Result<usize, usize>
        requires { IsKeyOrder (keys_of entries.now) self.now.places.items }
        ensures bound { IsSearchInRange result (length self.now.places.items) }
        ensures place { option_map (slice_index self.now.places.items) (result_ok result) ≡ position (same_key key.now) (keys_of entries.now) }
        ensures room { IfErr result (λ at. IsKeyOrder (keys_of entries.now ++ key.now ∷ []) (insert self.now.places.items at (length entries.now))) }
    {
        self.places
            .binary_search_by(|place| compare(entries, *place as usize, key))
    }

    /// The place that stands here.
    pub fn get(&self, at: usize) -> usize
        requires { at < length self.now.places.items }
        ensures { result ≡ slice_index self.now.places.items at }
    {
        self.places[at] as usize
    }

    /// Puts a place here, before those that stand here and behind. `AllocError` where the memory was refused, or where
    /// the place is 2^32 or above: then the places are as before.
    pub fn insert(&mut self, at: usize, place: usize) -> Result<(), AllocError>
        requires { at ≤ length self.old.places.items }
        ensures inserted { OnOk result (self.new.places.items ≡ insert self.old.places.items at place) }
        ensures unchanged { OnErr result (self.new.places.items ≡ self.old.places.items) }
    {
        let Ok(place) = u32::try_from(place) else {
            return Err(AllocError);
        };
        self.places.insert(at, place)?;
        Ok(())
    }

    /// Takes the place that stands here out. All behind it are lowered, since the entries there move.
    pub fn remove(&mut self, at: usize) -> usize
        requires { at < length self.old.places.items }
        ensures value { result ≡ slice_index self.old.places.items at }
        ensures rest { self.new.places.items ≡ map (lowered result) (remove self.old.places.items at) }
    {
        let gone = self.places.remove(at);
        lower(&mut self.places, gone);
        gone as usize
    }
}

// How the key at a place compares with another; where no entry is, it is behind all.
fn compare(entries: &[(Key, Value)], place: usize, key: &Key) -> Ordering
    ensures { result ≡ place_cmp (keys_of entries.now) key.now place }
{
    match entries.get(place) {
        Some(entry) => entry.0.cmp(key),
        None => Ordering::Greater,
    }
}

// Lowers the places behind one whose entry has gone.
fn lower(places: &mut [u32], gone: u32)
    ensures { places.new ≡ map (lowered gone) places.old }
{
    for place in places.iter_mut() {
        if *place > gone {
            *place -= 1;
        }
    }
}
