//! What the lists of a delta have.

ghost use Rattle.delta_form.specs.Deltas.{cell_behind, cell_behind_lawful, new_node_form, new_node_lawful, number_behind, number_behind_lawful, request_behind, request_behind_lawful, written_behind, written_behind_lawful};

use crate::numbered::take_number;
use crate::{NewNode, NumberedCell, WrittenCell, WrittenRequest, WrittenThread};
use byte_form::{Memory, put_u8, take_u8};
use field_form::{Field, FormRefusal, Listing};
use image_form::ImageFrame;
use model_run::{Context, NodeKind, OpenRequest, Request, Wait};
use model_text::{Bytes, Ids, Sequence, Text};
use std::alloc::Global;

/// Numbers that rise.
pub struct Rising;

impl Listing<u32> for Rising {
    ghost behind = { number_behind };

    ghost lawful = { number_behind_lawful };

    fn spell(_before: &[u32], number: &u32, out: &mut Vec<u8>) -> Result<(), Memory> {
        number.spell(out)
    }

    fn read(
        _alloc: Global,
        before: &[u32],
        bytes: &[u8],
        at: u64,
    ) -> Result<(u32, u64), FormRefusal> {
        take_number(before, bytes, at)
    }
}

/// Cells by rising numbers.
pub struct ByCell;

impl Listing<NumberedCell> for ByCell {
    ghost behind = { cell_behind };

    ghost lawful = { cell_behind_lawful };

    fn spell(
        _before: &[NumberedCell],
        numbered: &NumberedCell,
        out: &mut Vec<u8>,
    ) -> Result<(), Memory> {
        numbered.number.spell(out)?;
        numbered.cell.spell(out)
    }

    fn read(
        alloc: Global,
        before: &[NumberedCell],
        bytes: &[u8],
        at: u64,
    ) -> Result<(NumberedCell, u64), FormRefusal> {
        let (number, behind) = take_number(before, bytes, at)?;
        let (cell, behind) = WrittenCell::read(alloc, bytes, behind)?;
        Ok((NumberedCell { number, cell }, behind))
    }
}

impl Field for NewNode {
    ghost form = { new_node_form };

    ghost lawful = { new_node_lawful };

    fn spell(&self, out: &mut Vec<u8>) -> Result<(), Memory> {
        self.kind.spell(out)?;
        self.name.spell(out)?;
        self.start.spell(out)?;
        self.parents.spell(out)
    }

    fn read(alloc: Global, bytes: &[u8], at: u64) -> Result<(NewNode, u64), FormRefusal> {
        let (kind, at) = NodeKind::read(alloc, bytes, at)?;
        let (name, at) = Text::read(alloc, bytes, at)?;
        let (start, at) = u32::read(alloc, bytes, at)?;
        let (parents, at) = Ids::read(alloc, bytes, at)?;
        let node = NewNode {
            kind,
            name,
            start,
            parents,
        };
        Ok((node, at))
    }
}

/// Written requests by rising numbers.
pub struct ByWrittenRequest;

impl Listing<WrittenRequest> for ByWrittenRequest {
    ghost behind = { request_behind };

    ghost lawful = { request_behind_lawful };

    fn spell(
        _before: &[WrittenRequest],
        written: &WrittenRequest,
        out: &mut Vec<u8>,
    ) -> Result<(), Memory> {
        match written {
            WrittenRequest::Whole(open) => {
                put_u8(out, 0)?;
                open.number.spell(out)?;
                open.thread.spell(out)?;
                open.request.spell(out)
            }
            WrittenRequest::Grown {
                number,
                taken,
                out: added,
            } => {
                put_u8(out, 1)?;
                number.spell(out)?;
                taken.spell(out)?;
                added.spell(out)
            }
        }
    }

    fn read(
        alloc: Global,
        before: &[WrittenRequest],
        bytes: &[u8],
        at: u64,
    ) -> Result<(WrittenRequest, u64), FormRefusal> {
        let (kind, behind) = take_u8(bytes, at)?;
        match kind {
            0 => {
                let (number, at) = take_number(before, bytes, behind)?;
                let (thread, at) = u32::read(alloc, bytes, at)?;
                let (request, at) = Request::read(alloc, bytes, at)?;
                let open = OpenRequest {
                    number,
                    thread,
                    request,
                };
                Ok((WrittenRequest::Whole(open), at))
            }
            1 => {
                let (number, at) = take_number(before, bytes, behind)?;
                let (taken, at) = u64::read(alloc, bytes, at)?;
                let (out, at) = Bytes::read(alloc, bytes, at)?;
                Ok((WrittenRequest::Grown { number, taken, out }, at))
            }
            _ => Err(FormRefusal::Fault { at }),
        }
    }
}

// What stands behind the number of a written thread.
type Rest = (
    Option<u32>,
    (u32, (Wait, (Context, (u32, Sequence<ImageFrame>)))),
);

/// Written threads by rising numbers.
pub struct ByWrittenThread;

impl Listing<WrittenThread> for ByWrittenThread {
    ghost behind = { written_behind };

    ghost lawful = { written_behind_lawful };

    fn spell(
        _before: &[WrittenThread],
        thread: &WrittenThread,
        out: &mut Vec<u8>,
    ) -> Result<(), Memory> {
        thread.number.spell(out)?;
        thread.parent.spell(out)?;
        thread.head.spell(out)?;
        thread.wait.spell(out)?;
        thread.context.spell(out)?;
        thread.kept.spell(out)?;
        thread.frames.spell(out)
    }

    fn read(
        alloc: Global,
        before: &[WrittenThread],
        bytes: &[u8],
        at: u64,
    ) -> Result<(WrittenThread, u64), FormRefusal> {
        let (number, behind) = take_number(before, bytes, at)?;
        let ((parent, (head, (wait, (context, (kept, frames))))), behind) = Rest::read(
            alloc, bytes, behind,
        )?;
        let thread = WrittenThread {
            number,
            parent,
            head,
            wait,
            context,
            kept,
            frames,
        };
        Ok((thread, behind))
    }
}
