//! Lists that get more behind them.

ghost use Rattle.std.specs.Prelude.{◌≡◌, ◌++◌, IfOk, List, Option};
ghost use Rattle.delta_form.specs.Applying.{Applies, in_turn};
ghost use Rattle.delta_form.specs.After.{put_cell, put_node};

use crate::cells::cell_now;
use crate::{DeltaRefusal, NewNode, NumberedCell};
use model_run::FlowNode;
use model_text::Sequence;
use model_values::{Cell, Value};
use std::alloc::AllocError;
use std::mem::replace;

/// Both lists, one behind the other. `AllocError` where the memory was refused.
pub(crate) fn appended<T: Drop>(
    front: Sequence<T>,
    behind: Sequence<T>,
) -> Result<Sequence<T>, AllocError>
    ensures { IfOk result (λ all. all ≡ front ++ behind) }
{
    let mut all = front.into_vec();
    let mut others = behind.into_vec();
    all.append(&mut others)?;
    Ok(Sequence::from_vec(all))
}

/// What is put into a list at its place.
pub(crate) trait Put<T>: Drop + Sized {
    ghost put: { Self → List T → Option (List T) };

    /// The list with it. `Fault` where it has no place in the list, `Memory` where there is none.
    fn put(self, items: Sequence<T>) -> Result<Sequence<T>, DeltaRefusal>
        ensures { Applies result (Self.put self items) };
}

/// The list with all these, one after the other.
pub(crate) fn put_all<T: Drop, P: Put<T>>(
    items: Sequence<T>,
    all: Sequence<P>,
) -> Result<Sequence<T>, DeltaRefusal>
    ensures { Applies result (in_turn P.put all items) }
{
    let mut items = items;
    for one in all.into_vec() {
        items = one.put(items)?;
    }
    Ok(items)
}

impl Put<Cell> for NumberedCell {
    ghost put = { put_cell };

    fn put(self, items: Sequence<Cell>) -> Result<Sequence<Cell>, DeltaRefusal>
        ensures { Applies result (put_cell self items) }
    {
        let mut cells = items.into_vec();
        let place = self.number as usize;
        if place < cells.len() {
            let stood = replace(&mut cells[place], Cell::Variable(Value::Null));
            let cell = cell_now(Some(stood), self.cell)?;
            let mut cells = Sequence::from_vec(cells);
            cells.set(place, cell);
            return Ok(cells);
        }
        if place > cells.len() {
            return Err(DeltaRefusal::Fault);
        }
        cells.push(cell_now(None, self.cell)?)?;
        Ok(Sequence::from_vec(cells))
    }
}

impl Put<FlowNode> for NewNode {
    ghost put = { put_node };

    fn put(self, items: Sequence<FlowNode>) -> Result<Sequence<FlowNode>, DeltaRefusal>
        ensures { Applies result (put_node self items) }
    {
        let mut nodes = items;
        if nodes.len() >= 4_294_967_294 {
            return Err(DeltaRefusal::Fault);
        }
        nodes.push(FlowNode {
            id: nodes.len() as u32 + 2,
            kind: self.kind,
            name: self.name,
            start: self.start,
            parents: self.parents,
        })?;
        Ok(nodes)
    }
}
