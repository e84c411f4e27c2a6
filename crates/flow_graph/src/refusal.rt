//! Why a graph refuses a node, and the number at which it does.

ghost use Rattle.std.specs.Prelude.{◌≡◌};
ghost use Rattle.flow_graph.specs.declared.refusal.NodeRefusal.TheVariants.{Memory};

use std::alloc::AllocError;

/// The most nodes of a graph.
pub(crate) const MAX_NODES: usize = 65536;

/// Why a node was not added to a graph, which is as it was.
#[derive(Clone, Copy, Debug, PartialEq, Eq)]
pub enum NodeRefusal {
    /// The memory was refused. It is told only where the limit would not be passed.
    Memory,
    /// The graph would have more than 65,536 nodes. It is told whether there is memory or not.
    NodeLimit,
}

impl From<AllocError> for NodeRefusal {
    ghost from_gives = { λ _ refusal. refusal ≡ Memory };

    fn from(_error: AllocError) -> NodeRefusal {
        NodeRefusal::Memory
    }
}
