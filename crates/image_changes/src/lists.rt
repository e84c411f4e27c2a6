//! Lists that only get more behind them, or whose items are replaced in their places.

ghost use Rattle.std.specs.Prelude.{◌≡◌, ◌<◌, ◌^◌, ◌++◌, IfOk, OnOk, length, map};
ghost use Rattle.std.specs.List.{AllByRecursion as AllAre};
ghost use Rattle.model_run.specs.Among.{AreAmong};
ghost use Rattle.model_run.specs.Fitting.{NamesRise, NodesFit};
ghost use Rattle.image_changes.specs.Least.{CellsDiffer};
ghost use Rattle.model_run.specs.FlowNodes.{IsFront};
ghost use Rattle.cell_heap.specs.Marks.{places};
ghost use Rattle.image_changes.specs.Seen.{KeepsUnmarked};
ghost use Rattle.image_changes.specs.Parts.{PutsBindings, PutsCells, PutsNodes, as_new};
ghost use Rattle.image_changes.specs.Walks.{NotesBinding, NotesCell};

use crate::same::is_at;
use crate::written::written_cell;
use cell_heap::Heap;
use delta_form::{NewNode, NewNodes, NumberedCell, NumberedCells};
use model_run::FlowNode;
use model_text::{Bytes, Sequence};
use model_values::{Binding, Cell};
use std::alloc::{AllocError, Global};

/// What came behind the bytes from before, which are the beginning of those now.
pub(crate) fn added_bytes(alloc: Global, before: &[u8], now: &[u8]) -> Result<Bytes, AllocError>
    requires front { IsFront before.now now.now }
    ensures { IfOk result (λ added. now.now ≡ before.now ++ added) }
{
    let added = Sequence::from_slice(alloc, &now[before.len()..])?;
    Ok(added)
}

/// The new flow nodes: those from before are the first ones now.
pub(crate) fn new_nodes(
    alloc: Global,
    before: &[FlowNode],
    now: &[FlowNode],
) -> Result<NewNodes, AllocError>
    requires fit { NodesFit 2 now.now }
    requires front { IsFront before.now now.now }
    ensures { IfOk result (PutsNodes before.now now.now) }
{
    let news = nodes_as_new(alloc, &now[before.len()..])?;
    Ok(news)
}

/// The same nodes, without their numbers.
fn nodes_as_new(alloc: Global, nodes: &[FlowNode]) -> Result<NewNodes, AllocError>
    ensures same { IfOk result (λ news. news ≡ map as_new nodes.now) }
    ensures fit { OnOk result (AllAre (λ n. n.id < 2 ^ 32) nodes.now) }
{
    let mut news = Sequence::new(alloc);
    for node in nodes {
        news.push(as_new(node)?)?;
    }
    Ok(news)
}

/// The node without its number.
fn as_new(node: &FlowNode) -> Result<NewNode, AllocError>
    ensures same { IfOk result (λ new. new ≡ as_new node.now) }
    ensures fit { node.now.id < 2 ^ 32 }
{
    let _id = node.id;
    Ok(NewNode {
        kind: node.kind,
        name: node.name.clone()?,
        start: node.start,
        parents: node.parents.clone()?,
    })
}

/// The cells that are new or were changed, by their numbers. Each of them is marked.
pub(crate) fn changed_cells(
    alloc: Global,
    before: &[Cell],
    now: &Heap,
) -> Result<NumberedCells, AllocError>
    requires { KeepsUnmarked before.now now.now }
    ensures puts { IfOk result (PutsCells before.now now.now.cells) }
    ensures differ { IfOk result (CellsDiffer before.now) }
{
    let marked = now.changed_since()?;
    let changed = changed_among(alloc, before, now, marked.as_slice())?;
    Ok(changed)
}

/// Those of the marked cells that are new or were changed. The marked ones have these numbers.
fn changed_among(
    alloc: Global,
    before: &[Cell],
    now: &Heap,
    marked: &[u32],
) -> Result<NumberedCells, AllocError>
    requires keeps { KeepsUnmarked before.now now.now }
    requires marked { marked.now ≡ places now.now.changed }
    requires each { length now.now.changed ≡ length now.now.cells }
    ensures puts { IfOk result (PutsCells before.now now.now.cells) }
    ensures differ { IfOk result (CellsDiffer before.now) }
{
    let mut changed = Sequence::new(alloc);
    for id in marked {
        note_cell(alloc, &mut changed, before, *id, now.get(*id))?;
    }
    Ok(changed)
}

/// Puts a cell behind the changed ones, unless it stood so at its place.
fn note_cell(
    alloc: Global,
    changed: &mut NumberedCells,
    before: &[Cell],
    place: u32,
    cell: &Cell,
) -> Result<(), AllocError>
    ensures { OnOk result (NotesCell before.now place cell.now changed.old changed.new) }
{
    if let Some(written) = written_cell(alloc, before.get(place as usize), cell)? {
        changed.push(NumberedCell {
            number: place,
            cell: written,
        })?;
    }
    Ok(())
}

/// The new variables. Each from before stands now, so where there are as many as before there is none.
pub(crate) fn new_bindings(
    alloc: Global,
    before: &[Binding],
    now: &[Binding],
) -> Result<Sequence<Binding>, AllocError>
    requires rise { NamesRise now.now }
    requires among { AreAmong before.now now.now }
    ensures { IfOk result (PutsBindings before.now now.now) }
{
    let mut news = Sequence::new(alloc);
    if now.len() == before.len() {
        return Ok(news);
    }
    let mut place = 0;
    for binding in now {
        place = note_binding(&mut news, before, place, binding)?;
    }
    Ok(news)
}

/// Passes a variable that stood so, or puts it behind the new ones. Answers the place behind those that stood.
fn note_binding(
    news: &mut Sequence<Binding>,
    before: &[Binding],
    place: usize,
    binding: &Binding,
) -> Result<usize, AllocError>
    ensures { IfOk result (NotesBinding before.now place binding.now news.old news.new) }
{
    if is_at(before, place, binding) {
        return Ok(place + 1);
    }
    news.push(copied_binding(binding)?)?;
    Ok(place)
}

/// The same variable once more.
fn copied_binding(binding: &Binding) -> Result<Binding, AllocError>
    ensures { IfOk result (λ copy. copy ≡ binding.now) }
{
    let copy = binding.clone()?;
    Ok(copy)
}
