//! Lists: their number of items as a `u32`, and then the items.

ghost use Rattle.std.specs.Prelude.{[], List, OnOk};
ghost use Rattle.field_form.specs.Reading.{Gives};
ghost use Rattle.field_form.specs.Forms.{Form, Lawful, Written, list_of, many, read_items};
ghost use Rattle.field_form.specs.FormLaws.{many_lawful};

use crate::{Field, FormRefusal};
use byte_form::{Memory, put_u32, take_u32};
use chain::Chain;
use model_text::Sequence;
use std::alloc::Global;

/// How the items of a list are written and read, each behind those before it. An item that may not stand behind them
/// is a fault at the place of what tells so, also where the rest of the item is broken or cut short.
pub trait Listing<T> {
    ghost behind: { List T → Form T };

    /// Writes the item behind `out`.
    fn spell(before: &[T], item: &T, out: &mut Vec<u8>) -> Result<(), Memory>
        requires { (behind before.now).Needs item.now }
        ensures { OnOk result (Written (behind before.now) item.now out.old.items out.new.items) };

    /// Reads the item at this place, and answers it with the place behind it.
    fn read(alloc: Global, before: &[T], bytes: &[u8], at: u64) -> Result<(T, u64), FormRefusal>
        ensures { Gives result ((behind before.now).reading bytes.now at) };

    ghost lawful: { (before : List T) → Lawful (behind before) };
}

/// Items in any order.
pub struct InAnyOrder;

impl<T: Field> Listing<T> for InAnyOrder {
    ghost behind = { λ before. T.form };

    ghost lawful = { λ before. T.Field.lawful };

    fn spell(_before: &[T], item: &T, out: &mut Vec<u8>) -> Result<(), Memory> {
        item.spell(out)
    }

    fn read(alloc: Global, _before: &[T], bytes: &[u8], at: u64) -> Result<(T, u64), FormRefusal> {
        T::read(alloc, bytes, at)
    }
}

/// Writes the number of the items and the items behind `out`.
pub fn put_list<T, L: Listing<T>>(list: &Sequence<T>, out: &mut Vec<u8>) -> Result<(), Memory>
    requires { (list_of L.behind).Needs list.now }
    ensures { OnOk result (Written (list_of L.behind) list.now out.old.items out.new.items) }
{
    let items = list.as_slice();
    put_u32(out, items.len() as u32)?;
    for (place, item) in items.iter().enumerate() {
        L::spell(&items[..place], item, out)?;
    }
    Ok(())
}

/// Reads the list at this place, and answers it with the place behind it.
pub fn take_list<T: Drop, L: Listing<T>>(
    alloc: Global,
    bytes: &[u8],
    at: u64,
) -> Result<(Sequence<T>, u64), FormRefusal>
    ensures { Gives result ((list_of L.behind).reading bytes.now at) }
{
    let (count, behind) = take_u32(bytes, at)?;
    take_items::<T, L>(alloc, bytes, behind, count)
}

fn take_items<T: Drop, L: Listing<T>>(
    alloc: Global,
    bytes: &[u8],
    at: u64,
    count: u32,
) -> Result<(Sequence<T>, u64), FormRefusal>
    ensures { Gives result (read_items L.behind count [] bytes.now at) }
{
    let mut items = Sequence::new(alloc);
    let mut at = at;
    for _ in 0..count {
        let (item, behind) = L::read(alloc, items.as_slice(), bytes, at)?;
        items.push(item)?;
        at = behind;
    }
    Ok((items, at))
}

impl<T: Field + Drop> Field for Sequence<T> {
    ghost form = { many T.form };

    ghost lawful = { many_lawful T.form T.Field.lawful };

    fn spell(&self, out: &mut Vec<u8>) -> Result<(), Memory> {
        put_list::<T, InAnyOrder>(self, out)
    }

    fn read(alloc: Global, bytes: &[u8], at: u64) -> Result<(Sequence<T>, u64), FormRefusal> {
        take_list::<T, InAnyOrder>(alloc, bytes, at)
    }
}

impl<T: Field + Drop> Field for Chain<T> {
    ghost form = { many T.form };

    ghost lawful = { many_lawful T.form T.Field.lawful };

    fn spell(&self, out: &mut Vec<u8>) -> Result<(), Memory> {
        put_u32(out, self.len() as u32)?;
        let mut rest = self;
        while let Some((item, behind)) = rest.split() {
            item.spell(out)?;
            rest = behind;
        }
        Ok(())
    }

    fn read(alloc: Global, bytes: &[u8], at: u64) -> Result<(Chain<T>, u64), FormRefusal> {
        let (items, behind) = take_list::<T, InAnyOrder>(alloc, bytes, at)?;
        Ok((Chain::from_vec(items.into_vec())?, behind))
    }
}
