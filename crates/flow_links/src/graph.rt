//! The graph of a tree.
ghost use Rattle.std.specs.Prelude.{◌^◌, ◌<◌, ◌↔◌, Contains, IfOk};
ghost use Rattle.std.specs.List.Sorted.{IsStrictlySortedBy};
ghost use Rattle.flow_term.specs.declared.graph.Edge.{Edge as EdgeValue};
ghost use Rattle.flow_term.specs.declared.graph.Node.{Node as NodeValue};
ghost use Rattle.flow_term.specs.Orders.{edge_cmp, node_cmp};
ghost use Rattle.flow_term.specs.Trees.{term_size};
ghost use Rattle.flow_syntax.specs.Graph.{IsEdge, IsNode};

use crate::collect::links;
use crate::edges::edge_list;
use crate::nodes::node_list;
use flow_syntax::TypedSpec;
use flow_term::{Edge, List, Node, Term};
use std::alloc::{AllocError, Global};

/// The control-flow graph of a tree.
#[derive(Drop)]
pub struct PlainGraph {
    /// The nodes, in order, each once.
    pub nodes: List<Node>,
    /// The edges, in order, each once.
    pub edges: List<Edge>,
}

/// The nodes and the edges of a tree, those of [`plain_nodes`](crate::plain_nodes) and
/// [`plain_edges`](crate::plain_edges), from one list of its links. Fails only for want of memory.
pub fn plain_graph(alloc: Global, spec: &TypedSpec, tree: &Term) -> Result<PlainGraph, AllocError>
    requires { term_size tree.now < 2 ^ 32 }
    ensures nodes { IfOk result (λ graph. (node : NodeValue) → Contains graph.nodes node ↔ IsNode spec.now.spec tree.now node) }
    ensures nodes_ordered { IfOk result (λ graph. IsStrictlySortedBy node_cmp graph.nodes) }
    ensures edges { IfOk result (λ graph. (edge : EdgeValue) → Contains graph.edges edge ↔ IsEdge spec.now.spec tree.now edge.from edge.to) }
    ensures edges_ordered { IfOk result (λ graph. IsStrictlySortedBy edge_cmp graph.edges) }
{
    let links = links(alloc, spec, tree)?;
    let nodes = node_list(alloc, links.as_slice())?;
    let edges = edge_list(alloc, links.as_slice())?;
    Ok(PlainGraph { nodes, edges })
}
