//! The nodes of a tree.
ghost use Rattle.std.specs.Prelude.{◌≡◌, ◌^◌, ◌<◌, ◌↔◌, ◌⊎◌, [], Contains, IfOk, OnOk, MatchOption};
ghost use Rattle.std.specs.List.Sorted.{IsStrictlySortedBy};
ghost use Rattle.flow_term.specs.declared.graph.Node.{Node as NodeValue};
ghost use Rattle.flow_term.specs.Orders.{node_cmp};
ghost use Rattle.flow_term.specs.Trees.{term_size};
ghost use Rattle.flow_syntax.specs.Graph.{IsInner, IsNode, point_of};
ghost use Rattle.flow_links.specs.inner.Ends.{IsEnd};
ghost use Rattle.flow_links.specs.inner.Gains.{Gains};

use crate::collect::links;
use crate::ordered_set::{add, in_order};
use flow_syntax::TypedSpec;
use flow_term::{Link, List, Node, NodeKind, Path, Point, Term};
use std::alloc::{AllocError, Global};
use std::collections::BTreeSet;

/// The nodes of a tree, in order, each once: the points other than `In` and `Out` that the rules of its positions name.
/// Fails only for want of memory.
pub fn plain_nodes(alloc: Global, spec: &TypedSpec, tree: &Term) -> Result<List<Node>, AllocError>
    requires { term_size tree.now < 2 ^ 32 }
    ensures exactly { IfOk result (λ nodes. (node : NodeValue) → Contains nodes node ↔ IsNode spec.now.spec tree.now node) }
    ensures ordered { IfOk result (IsStrictlySortedBy node_cmp) }
{
    let links = links(alloc, spec, tree)?;
    node_list(alloc, links.as_slice())
}

/// The nodes at which links begin or end, in order, each once.
pub fn node_list(alloc: Global, links: &[Link]) -> Result<List<Node>, AllocError>
    ensures exactly { IfOk result (λ nodes. (node : NodeValue) → Contains nodes node ↔ IsEnd links.now node) }
    ensures ordered { IfOk result (IsStrictlySortedBy node_cmp) }
{
    let nodes = ends(alloc, links)?;
    in_order(alloc, nodes)
}

/// The nodes at which links begin or end.
fn ends(alloc: Global, links: &[Link]) -> Result<BTreeSet<Node>, AllocError>
    ensures { IfOk result (λ nodes. Gains [] nodes.keys (IsEnd links.now)) }
{
    let mut nodes = BTreeSet::new(alloc);
    for link in links {
        add_ends(&mut nodes, link)?;
    }
    Ok(nodes)
}

fn add_ends(nodes: &mut BTreeSet<Node>, link: &Link) -> Result<(), AllocError>
    ensures { OnOk result (Gains nodes.old.keys nodes.new.keys (λ node. (link.now.from ≡ point_of node) ⊎ (link.now.to ≡ point_of node))) }
{
    add_node(nodes, &link.from)?;
    add_node(nodes, &link.to)
}

fn add_node(nodes: &mut BTreeSet<Node>, point: &Point) -> Result<(), AllocError>
    ensures { OnOk result (Gains nodes.old.keys nodes.new.keys (λ node. point.now ≡ point_of node)) }
{
    match node_at(point)? {
        Some(node) => add(nodes, node),
        None => Ok(()),
    }
}

/// The node at a point, if the point is one.
pub fn node_at(point: &Point) -> Result<Option<Node>, AllocError>
    ensures { IfOk result (λ found. MatchOption found (IsInner point.now) (λ node. point.now ≡ point_of node)) }
{
    match point {
        Point::In(_) | Point::Out(_) => Ok(None),
        Point::Node(path) => Ok(Some(node_of(path, NodeKind::Node)?)),
        Point::Start(path) => Ok(Some(node_of(path, NodeKind::Start)?)),
        Point::End(path) => Ok(Some(node_of(path, NodeKind::End)?)),
    }
}

fn node_of(path: &Path, kind: NodeKind) -> Result<Node, AllocError>
    ensures { IfOk result (λ node. (node.path ≡ path.now) × (node.kind ≡ kind)) }
{
    let path = path.duplicate()?;
    Ok(Node { path, kind })
}
