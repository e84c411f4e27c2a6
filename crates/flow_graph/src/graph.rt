//! The nodes of a flow graph.

ghost use Rattle.std.specs.Prelude.{◌≡◌, ◌↔◌, ◌+◌, ◌-◌, ◌<◌, ◌^◌, [], ◌∷◌, ◌++◌, length, Some, IsTrue, IfOk, OnOk, OnErr, MatchResult};
ghost use Rattle.model_values.specs.declared.limit.LimitKind.TheVariants.{FlowNodes};
ghost use Rattle.model_run.specs.GraphText.{graph_text};
ghost use Rattle.model_run.specs.World.{start_node};
ghost use Rattle.flow_graph.specs.Numbers.{AreNumbered};
ghost use Rattle.flow_graph.specs.Added.{with_node, with_end};
ghost use Rattle.flow_graph.specs.Refusals.{node_limit, limit_of};

use crate::NodeRefusal;
use crate::refusal::MAX_NODES;
use crate::text::put_line;
use model_run::{FlowNode, NodeKind};
use model_text::{Bytes, Ids, Text};
use std::alloc::{AllocError, Global};
use std::marker::Model;

/// The flow graph of a build. A contract sees the list of its nodes, which has at least the first, and whose numbers
/// go up by one from 2.
#[derive(Drop)]
pub struct Graph {
    nodes: Vec<FlowNode>,
}

impl Model for Graph {
    ghost use Rattle.std.specs.Prelude.{List};
    ghost use Rattle.model_run.specs.declared.flow.FlowNode.{FlowNode};

    ghost Value = { List FlowNode };

    ghost use Rattle.flow_graph.specs.Numbers.{AreNumbered};

    ghost view = { λ graph. graph.nodes.items };

    ghost invariant = { λ graph. AreNumbered graph.nodes.items };
}

impl Graph {
    /// The graph of a build that begins: the start node, which has number 2. `AllocError` where the memory was refused.
    pub fn start(alloc: Global) -> Result<Graph, AllocError>
        ensures { IfOk result (λ graph. graph ≡ start_node ∷ []) }
    {
        let mut nodes = Vec::new(alloc);
        nodes.push(FlowNode {
            id: 2,
            kind: NodeKind::Start,
            name: Text::new(alloc),
            start: 0,
            parents: Ids::new(alloc),
        })?;
        Ok(Graph { nodes })
    }

    /// The graph of just these nodes, under no limit. It takes no memory.
    pub fn of(nodes: Vec<FlowNode>) -> Graph
        requires { AreNumbered nodes.items }
        ensures { result ≡ nodes.items }
    {
        Graph { nodes }
    }

    /// Its nodes, in the order of their numbers.
    pub fn nodes(&self) -> &[FlowNode]
        ensures nodes { result.now ≡ self.now }
        ensures numbered { AreNumbered self.now }
    {
        self.nodes.as_slice()
    }

    /// Whether `add` would refuse one more node for the limit: the graph has 65,536 nodes or more. Whoever makes a node
    /// together with its line of the log asks this first, for neither call can be undone.
    pub fn is_full(&self) -> bool
        ensures { IsTrue result ↔ (node_limit self.now ≡ Some FlowNodes) }
    {
        self.nodes.len() >= MAX_NODES
    }

    /// Adds a node of this kind, with this name, behind these parents, and gives its number, which is the next one.
    /// `start` is the number of the node whose end it is, and 0 for a node that is the end of none.
    ///
    /// # Errors
    ///
    /// `NodeLimit` exactly where the graph has 65,536 nodes or more; else `Memory` where the memory was refused. After
    /// either the graph is as it was.
    pub fn add(
        &mut self,
        kind: NodeKind,
        name: Text,
        start: u32,
        parents: Ids,
    ) -> Result<u32, NodeRefusal>
        ensures number { IfOk result (λ id. id ≡ length self.old + 2) }
        ensures added { OnOk result (self.new ≡ with_node kind name start parents self.old) }
        ensures refusal { MatchResult result (λ _. node_limit self.old ≡ None) (λ refusal. node_limit self.old ≡ limit_of refusal) }
        ensures unchanged { OnErr result (self.new ≡ self.old) }
    {
        if self.is_full() {
            return Err(NodeRefusal::NodeLimit);
        }
        Ok(self.push(kind, name, start, parents)?)
    }

    /// Adds the end node of the build behind these parents, under no limit, and gives its number, which is the next one.
    /// `AllocError` where the memory was refused: then the graph is as it was.
    pub fn end(&mut self, parents: Ids) -> Result<u32, AllocError>
        requires { length self.old + 1 < 2 ^ 32 - 1 }
        ensures number { IfOk result (λ id. id ≡ length self.old + 2) }
        ensures added { OnOk result (self.new ≡ with_end parents self.old) }
        ensures unchanged { OnErr result (self.new ≡ self.old) }
    {
        let name = Text::new(*self.nodes.allocator());
        self.push(NodeKind::End, name, 0, parents)
    }

    /// Puts a node behind the others, with the next number.
    fn push(
        &mut self,
        kind: NodeKind,
        name: Text,
        start: u32,
        parents: Ids,
    ) -> Result<u32, AllocError>
        requires { length self.old + 1 < 2 ^ 32 - 1 }
        ensures number { IfOk result (λ id. id ≡ length self.old + 2) }
        ensures added { OnOk result (self.new ≡ with_node kind name start parents self.old) }
        ensures unchanged { OnErr result (self.new ≡ self.old) }
    {
        let id = self.nodes.len() as u32 + 2;
        self.nodes.push(FlowNode {
            id,
            kind,
            name,
            start,
            parents,
        })?;
        Ok(id)
    }

    /// A line for each node: its number, what it is, and the numbers of its parents. `AllocError` where the memory was
    /// refused.
    pub fn text(&self) -> Result<Bytes, AllocError>
        ensures { IfOk result (λ text. text ≡ graph_text self.now) }
    {
        let mut text = Text::new(*self.nodes.allocator());
        for node in &self.nodes {
            put_line(&mut text, node)?;
        }
        Ok(Bytes::from_vec(text.into_vec()))
    }
}
