//! The outer nodes of an entered position, by descent: its first nodes, or its last ones.
ghost use Rattle.std.specs.Prelude.{◌≡◌, ◌<◌, ◌^◌, ◌++◌, IfOk, OnOk, Some, length, slice_get};
ghost use Rattle.path_tree.specs.declared.tree.PathTree.{PathTree as Tree};
ghost use Rattle.path_tree.specs.Shapes.{children_of};
ghost use Rattle.flow_links.specs.inner.Gains.{Gains};
ghost use Rattle.graph_shape.specs.declared.kept.Kept.{Kept as KeptValue};
ghost use Rattle.graph_shape.specs.Outer.{HasFewChildren, IsOpened, IsOpenedAt, IsOuterIn, IsOuterOfChild, IsOuterOfItems, item_at, stop_node};
ghost use Rattle.graph_shape.specs.Shapes.{would_pass};

use crate::kept::Kept;
use crate::passing::child_bits;
use crate::paths::{child_path, same_path};
use crate::plans::Plans;
use flow_term::{List, Node, NodeKind};
use path_tree::PathTree;
use rule_plans::{Stop, reached};
use std::alloc::{AllocError, Global};

/// Which outer nodes are listed.
#[derive(Clone, Copy, Debug, PartialEq, Eq)]
pub enum Side {
    /// Those to which the entry leads.
    First,
    /// Those from which the exit is reached.
    Last,
}

/// The node that a stop is, if it is one.
fn node_of(alloc: Global, stop: Stop, path: &[u32]) -> Result<Option<Node>, AllocError>
    ensures { IfOk result (λ node. node ≡ stop_node path.now stop) }
{
    match stop {
        Stop::Start => Ok(Some(Node {
            path: same_path(alloc, path)?,
            kind: NodeKind::Start,
        })),
        Stop::End => Ok(Some(Node {
            path: same_path(alloc, path)?,
            kind: NodeKind::End,
        })),
        Stop::This => Ok(Some(Node {
            path: same_path(alloc, path)?,
            kind: NodeKind::Node,
        })),
        Stop::Child(k) => Ok(Some(Node {
            path: child_path(alloc, path, k)?,
            kind: NodeKind::Node,
        })),
        Stop::Entry | Stop::Exit | Stop::ChildEntry(_) | Stop::ChildExit(_) => Ok(None),
    }
}

fn add_node(alloc: Global, path: &[u32], stop: Stop, out: &mut List<Node>) -> Result<(), AllocError>
    ensures { OnOk result (Gains out.old out.new (λ n. stop_node path.now stop ≡ Some n)) }
{
    match node_of(alloc, stop, path)? {
        None => Ok(()),
        Some(node) => out.push(node),
    }
}

/// How many children a position has.
pub fn child_count(shape: &PathTree<Kept>) -> u32
    requires few { HasFewChildren shape.now }
    ensures { result ≡ length (children_of shape.now) }
{
    shape.children.len() as u32
}

/// The number of the item that comes at this turn.
fn item_number(side: Side, count: u32, turn: u32) -> u32
    requires { turn < count }
    ensures value { result ≡ item_at side count turn }
    ensures within { result < count }
{
    match side {
        Side::First => turn,
        Side::Last => count - (turn + 1),
    }
}

/// Whether the item with this number would be passed.
pub fn is_passing(items: &[PathTree<Kept>], at: usize) -> bool
    requires { at < length items.now }
    ensures { (s : Tree KeptValue) → slice_get items.now at ≡ Some s → result ≡ would_pass s }
{
    items[at].value.summary.passes
}

/// Adds the first nodes of a position, where it is entered; or its last nodes, by plans that are turned round.
#[cycle(outward)]
pub fn add_outer(
    alloc: Global,
    plans: &Plans,
    side: Side,
    shape: &PathTree<Kept>,
    path: &[u32],
    out: &mut List<Node>,
) -> Result<(), AllocError>
    requires few { HasFewChildren shape.now }
    ensures { OnOk result (Gains out.old out.new (λ n. IsOuterIn plans.now side n shape.now path.now)) }
{
    if shape.value.summary.list {
        return add_items(alloc, plans, side, shape, path, out);
    }
    let bits = child_bits(alloc, shape.children.as_slice())?;
    let found = reached(
        alloc,
        plans.steps(shape.value.summary.rule),
        bits.as_slice(),
        Stop::Entry,
    )?;
    add_opened(alloc, plans, side, shape, path, found.as_slice(), out)
}

/// Adds the outer nodes of the items of a list.
#[cycle(outward)]
fn add_items(
    alloc: Global,
    plans: &Plans,
    side: Side,
    shape: &PathTree<Kept>,
    path: &[u32],
    out: &mut List<Node>,
) -> Result<(), AllocError>
    requires few { HasFewChildren shape.now }
    ensures { OnOk result (Gains out.old out.new (IsOuterOfItems plans.now side (children_of shape.now) path.now (length (children_of shape.now)))) }
{
    let count = child_count(shape);
    for turn in 0..count {
        let at = item_number(side, count, turn);
        add_child(alloc, plans, side, shape, path, at, out)?;
        if !is_passing(shape.children.as_slice(), at as usize) {
            return Ok(());
        }
    }
    Ok(())
}

/// Adds the nodes at stops, and the outer nodes of the children whose entries are among them.
#[cycle(outward)]
pub fn add_opened(
    alloc: Global,
    plans: &Plans,
    side: Side,
    shape: &PathTree<Kept>,
    path: &[u32],
    stops: &[Stop],
    out: &mut List<Node>,
) -> Result<(), AllocError>
    requires few { HasFewChildren shape.now }
    ensures { OnOk result (Gains out.old out.new (IsOpened plans.now side (children_of shape.now) path.now stops.now)) }
{
    for stop in stops {
        add_at(alloc, plans, side, shape, path, *stop, out)?;
    }
    Ok(())
}

/// Adds the node at a stop, or the outer nodes of the child whose entry it is.
#[cycle(outward)]
pub fn add_at(
    alloc: Global,
    plans: &Plans,
    side: Side,
    shape: &PathTree<Kept>,
    path: &[u32],
    stop: Stop,
    out: &mut List<Node>,
) -> Result<(), AllocError>
    requires few { HasFewChildren shape.now }
    ensures { OnOk result (Gains out.old out.new (IsOpenedAt plans.now side (children_of shape.now) path.now stop)) }
{
    match stop {
        Stop::ChildEntry(k) => add_child(alloc, plans, side, shape, path, k, out),
        _ => add_node(alloc, path, stop, out),
    }
}

/// Adds the outer nodes of the child with this number.
#[cycle(outward)]
pub fn add_child(
    alloc: Global,
    plans: &Plans,
    side: Side,
    shape: &PathTree<Kept>,
    path: &[u32],
    at: u32,
    out: &mut List<Node>,
) -> Result<(), AllocError>
    requires few { HasFewChildren shape.now }
    ensures { OnOk result (Gains out.old out.new (IsOuterOfChild plans.now side (children_of shape.now) path.now at)) }
{
    match shape.children.as_slice().get(at as usize) {
        None => Ok(()),
        Some(child) => {
            let below = child_path(alloc, path, at)?;
            add_outer(alloc, plans, side, child, below.as_slice(), out)
        }
    }
}
