//! The edges of a tree, by closure over its links.
ghost use Rattle.std.specs.Prelude.{◌≡◌, ◌^◌, ◌<◌, ◌↔◌, [], ℕ, Some, Contains, IfOk, OnOk, All, length, slice_get};
ghost use Rattle.std.specs.List.Sorted.{IsStrictlySortedBy};
ghost use Rattle.flow_term.specs.declared.graph.Edge.{Edge as EdgeValue};
ghost use Rattle.flow_term.specs.Orders.{edge_cmp};
ghost use Rattle.flow_term.specs.Trees.{term_size};
ghost use Rattle.flow_syntax.specs.Graph.{IsEdge, point_of};
ghost use Rattle.flow_links.specs.inner.Ends.{AreEdgesBy};
ghost use Rattle.flow_links.specs.inner.Gains.{Gains};
ghost use Rattle.flow_links.specs.inner.Numbers.{IsEdgeBelow, IsEdgeFrom, IsEdgeTo};
ghost use Rattle.flow_links.specs.inner.Reach.{IsArrow};

use crate::collect::links;
use crate::nodes::node_at;
use crate::numbers::{PointGraph, number_points};
use crate::ordered_set::{add, in_order};
use crate::reach::reached;
use flow_syntax::TypedSpec;
use flow_term::{Edge, Link, List, Node, Term};
use std::alloc::{AllocError, Global};
use std::collections::BTreeSet;

/// The edges of a tree, in order, each once: the pairs of nodes between which one or more links lead over `In` and `Out`
/// points alone. Fails only for want of memory.
pub fn plain_edges(alloc: Global, spec: &TypedSpec, tree: &Term) -> Result<List<Edge>, AllocError>
    requires { term_size tree.now < 2 ^ 32 }
    ensures exactly { IfOk result (λ edges. (edge : EdgeValue) → Contains edges edge ↔ IsEdge spec.now.spec tree.now edge.from edge.to) }
    ensures ordered { IfOk result (IsStrictlySortedBy edge_cmp) }
{
    let links = links(alloc, spec, tree)?;
    edge_list(alloc, links.as_slice())
}

/// The edges of the tree that has these links, in order, each once.
pub fn edge_list(alloc: Global, links: &[Link]) -> Result<List<Edge>, AllocError>
    ensures exactly { IfOk result (λ edges. AreEdgesBy links.now edges) }
    ensures ordered { IfOk result (IsStrictlySortedBy edge_cmp) }
{
    let graph = number_points(alloc, links)?;
    let edges = edges_of(alloc, &graph)?;
    in_order(alloc, edges)
}

/// The edges of a graph of points.
fn edges_of(alloc: Global, graph: &PointGraph) -> Result<BTreeSet<Edge>, AllocError>
    requires sizes { length graph.now.successors.items ≡ length graph.now.points.keys }
    requires within { (j k : ℕ) → IsArrow graph.now.successors.items j k → k < length graph.now.points.keys }
    ensures { IfOk result (λ edges. Gains [] edges.keys (IsEdgeBelow graph.now.points.keys graph.now.successors.items (length graph.now.points.keys))) }
{
    let mut edges = BTreeSet::new(alloc);
    for number in 0..graph.points.len() {
        add_edges_from(alloc, graph, number, &mut edges)?;
    }
    Ok(edges)
}

/// Adds the edges from the point with this number, if it is a node.
fn add_edges_from(
    alloc: Global,
    graph: &PointGraph,
    from: usize,
    edges: &mut BTreeSet<Edge>,
) -> Result<(), AllocError>
    requires sizes { length graph.now.successors.items ≡ length graph.now.points.keys }
    requires within { (j k : ℕ) → IsArrow graph.now.successors.items j k → k < length graph.now.points.keys }
    requires start { from < length graph.now.points.keys }
    ensures { OnOk result (Gains edges.old.keys edges.new.keys (IsEdgeFrom graph.now.points.keys graph.now.successors.items from)) }
{
    match node_at(graph.point(from))? {
        None => Ok(()),
        Some(source) => {
            let found = reached(alloc, graph, from)?;
            add_edges_to(graph, &source, found.as_slice(), edges)
        }
    }
}

/// Adds the edges from a node to those of the numbers that are nodes.
fn add_edges_to(
    graph: &PointGraph,
    source: &Node,
    numbers: &[usize],
    edges: &mut BTreeSet<Edge>,
) -> Result<(), AllocError>
    requires { All (λ k. k < length graph.now.points.keys) numbers.now }
    ensures { OnOk result (Gains edges.old.keys edges.new.keys (IsEdgeTo graph.now.points.keys source.now numbers.now)) }
{
    for number in numbers {
        add_edge(graph, source, *number, edges)?;
    }
    Ok(())
}

/// Adds the edge from a node to the point with this number, if that is a node.
fn add_edge(
    graph: &PointGraph,
    source: &Node,
    number: usize,
    edges: &mut BTreeSet<Edge>,
) -> Result<(), AllocError>
    requires { number < length graph.now.points.keys }
    ensures { OnOk result (Gains edges.old.keys edges.new.keys (λ edge. (edge.from ≡ source.now) × (slice_get graph.now.points.keys number ≡ Some (point_of edge.to)))) }
{
    match node_at(graph.point(number))? {
        None => Ok(()),
        Some(to) => {
            let from = source.duplicate()?;
            add(edges, Edge { from, to })
        }
    }
}
