//! Flow nodes.

ghost use Rattle.field_form.specs.Flow.{node_behind, node_behind_lawful, node_kind_form, node_kind_lawful};

use crate::{Field, FormRefusal, Listing, take_one_of};
use byte_form::{Memory, put_u8};
use model_run::{FlowNode, NodeKind};
use model_text::{Ids, Text};
use std::alloc::Global;

impl Field for NodeKind {
    ghost form = { node_kind_form };

    ghost lawful = { node_kind_lawful };

    fn spell(&self, out: &mut Vec<u8>) -> Result<(), Memory> {
        put_u8(out, *self as u8)
    }

    fn read(_alloc: Global, bytes: &[u8], at: u64) -> Result<(NodeKind, u64), FormRefusal> {
        take_one_of(
            bytes,
            at,
            &[
                NodeKind::Start,
                NodeKind::Atom,
                NodeKind::Block,
                NodeKind::Body,
                NodeKind::EndBody,
                NodeKind::EndBlock,
                NodeKind::End,
            ],
        )
    }
}

/// Flow nodes, whose numbers go up by one from 2 and are not written.
pub struct Counted;

impl Listing<FlowNode> for Counted {
    ghost behind = { node_behind };

    ghost lawful = { node_behind_lawful };

    fn spell(before: &[FlowNode], node: &FlowNode, out: &mut Vec<u8>) -> Result<(), Memory> {
        prove!(node.id as usize == before.len() + 2);
        node.kind.spell(out)?;
        node.name.spell(out)?;
        node.start.spell(out)?;
        node.parents.spell(out)
    }

    fn read(
        alloc: Global,
        before: &[FlowNode],
        bytes: &[u8],
        at: u64,
    ) -> Result<(FlowNode, u64), FormRefusal> {
        if before.len() >= 4_294_967_294 {
            return Err(FormRefusal::Fault { at });
        }
        let (kind, behind) = NodeKind::read(alloc, bytes, at)?;
        let (name, behind) = Text::read(alloc, bytes, behind)?;
        let (start, behind) = u32::read(alloc, bytes, behind)?;
        let (parents, behind) = Ids::read(alloc, bytes, behind)?;
        let node = FlowNode {
            id: before.len() as u32 + 2,
            kind,
            name,
            start,
            parents,
        };
        Ok((node, behind))
    }
}
