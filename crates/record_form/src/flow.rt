//! Flow nodes.

use crate::{Measured, Sizing};
use field_form::Counted;
use model_run::FlowNode;

impl Sizing<FlowNode> for Counted {
    fn size(_before: &[FlowNode], node: &FlowNode) -> u64 {
        node.name
            .size()
            .saturating_add(node.parents.size())
            .saturating_add(5)
    }
}
