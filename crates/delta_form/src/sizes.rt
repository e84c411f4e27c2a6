//! How many bytes the spelling of a delta has.
#![tactic(auto, using(record_form::proofs::Joined::two_parts))]

ghost use Rattle.std.specs.Prelude.{◌≡◌};
ghost use Rattle.record_form.specs.Sizes.{size_in};
ghost use Rattle.delta_form.specs.Deltas.{delta_parts, first_form, other_form};

use crate::{
    ByCell, ByWrittenRequest, ByWrittenThread, Delta, NewNode, NumberedCell, Rising, WrittenCell,
    WrittenRequest, WrittenThread,
};
use field_form::ByExecutor;
use image_form::ByName;
use model_run::Held;
use model_values::Binding;
use record_form::{Measured, Sizing, list_size};

impl Sizing<u32> for Rising {
    fn size(_before: &[u32], _number: &u32) -> u64 {
        4
    }
}

impl Measured for WrittenCell {
    fn size(&self) -> u64 {
        match self {
            WrittenCell::Whole(cell) => cell.size(),
            WrittenCell::GrownList(values) => values.size().saturating_add(1),
            WrittenCell::GrownMap(entries) => entries.size().saturating_add(1),
        }
    }
}

impl Sizing<NumberedCell> for ByCell {
    fn size(_before: &[NumberedCell], numbered: &NumberedCell) -> u64 {
        numbered.cell.size().saturating_add(4)
    }
}

impl Measured for NewNode {
    fn size(&self) -> u64 {
        self.name
            .size()
            .saturating_add(self.parents.size())
            .saturating_add(5)
    }
}

impl Sizing<WrittenRequest> for ByWrittenRequest {
    fn size(_before: &[WrittenRequest], written: &WrittenRequest) -> u64 {
        match written {
            WrittenRequest::Whole(open) => open.request.size().saturating_add(9),
            WrittenRequest::Grown { out, .. } => out.size().saturating_add(13),
        }
    }
}

impl Sizing<WrittenThread> for ByWrittenThread {
    fn size(_before: &[WrittenThread], thread: &WrittenThread) -> u64 {
        thread
            .parent
            .size()
            .saturating_add(thread.wait.size())
            .saturating_add(thread.context.size())
            .saturating_add(thread.frames.size())
            .saturating_add(12)
    }
}

impl Measured for Delta {
    fn size(&self) -> u64 {
        first_size(self).saturating_add(others_size(self))
    }
}

fn first_size(delta: &Delta) -> u64
    ensures { result ≡ size_in first_form (delta_parts delta.now).0 }
{
    list_size::<Binding, ByName>(&delta.bindings)
        .saturating_add(list_size::<NumberedCell, ByCell>(&delta.cells))
        .saturating_add(10)
}

fn others_size(delta: &Delta) -> u64
    ensures { result ≡ size_in other_form (delta_parts delta.now).1 }
{
    delta
        .nodes
        .size()
        .saturating_add(delta.log.size())
        .saturating_add(list_size::<u32, Rising>(&delta.closed_requests))
        .saturating_add(list_size::<WrittenRequest, ByWrittenRequest>(&delta.requests))
        .saturating_add(list_size::<Held, ByExecutor>(&delta.held))
        .saturating_add(list_size::<u32, Rising>(&delta.ended_threads))
        .saturating_add(list_size::<WrittenThread, ByWrittenThread>(&delta.threads))
}
