//! The entries of maps.

ghost use Rattle.std.specs.Prelude.{◌≡◌, ◌<◌, [], OnOk, IfOk, None, length};
ghost use Rattle.std.specs.List.{AllByRecursion};
ghost use Rattle.std.specs.Map.{lookup};
ghost use Rattle.model_values.specs.Keys.{same_key};
ghost use Rattle.field_form.specs.Reading.{Gives};
ghost use Rattle.field_form.specs.Forms.{read_items};
ghost use Rattle.field_form.specs.Cells.{WrittenAt, entry_behind, entry_form, entries_form, entries_lawful};

use crate::{Field, FormRefusal};
use byte_form::{Memory, put_u32, take_u32};
use model_values::{Entries, Key, Value};
use std::alloc::Global;

impl Field for Entries {
    ghost form = { entries_form };

    ghost lawful = { entries_lawful };

    fn spell(&self, out: &mut Vec<u8>) -> Result<(), Memory> {
        let count = self.len();
        put_u32(out, count as u32)?;
        for place in 0..count {
            spell_entry(self, place, out)?;
        }
        Ok(())
    }

    fn read(alloc: Global, bytes: &[u8], at: u64) -> Result<(Entries, u64), FormRefusal> {
        let (count, behind) = take_u32(bytes, at)?;
        take_entries(alloc, bytes, behind, count)
    }
}

fn spell_entry(entries: &Entries, place: usize, out: &mut Vec<u8>) -> Result<(), Memory>
    requires few { AllByRecursion entry_form.Needs entries.now }
    requires within { place < length entries.now }
    ensures { OnOk result (WrittenAt place entries.now out.old.items out.new.items) }
{
    match entries.entry_at(place) {
        None => Ok(()),
        Some((key, value)) => {
            key.spell(out)?;
            value.spell(out)
        }
    }
}

fn take_entries(
    alloc: Global,
    bytes: &[u8],
    at: u64,
    count: u32,
) -> Result<(Entries, u64), FormRefusal>
    ensures { Gives result (read_items entry_behind count [] bytes.now at) }
{
    let mut entries = Entries::new(alloc);
    let mut at = at;
    for _ in 0..count {
        let ((key, value), behind) = take_entry(alloc, &entries, bytes, at)?;
        entries.put(key, value)?;
        at = behind;
    }
    Ok((entries, at))
}

fn take_entry(
    alloc: Global,
    before: &Entries,
    bytes: &[u8],
    at: u64,
) -> Result<((Key, Value), u64), FormRefusal>
    ensures read { Gives result ((entry_behind before.now).reading bytes.now at) }
    ensures is_new { IfOk result (λ got. lookup (same_key got.0.0) before.now ≡ None) }
{
    let (key, behind) = Key::read(alloc, bytes, at)?;
    if before.get(&key).is_some() {
        return Err(FormRefusal::Fault { at });
    }
    let (value, behind) = Value::read(alloc, bytes, behind)?;
    Ok(((key, value), behind))
}
