//! The edges that an entered position owns.
ghost use Rattle.std.specs.Prelude.{◌≡◌, ◌≤◌, ◌<◌, ◌+◌, Contains, OnOk, length};
ghost use Rattle.path_tree.specs.Shapes.{children_of};
ghost use Rattle.flow_links.specs.inner.Gains.{Gains};
ghost use Rattle.graph_shape.specs.Outer.{HasFewChildren};
ghost use Rattle.graph_edges.specs.Owned.{IsFirstFromItem, IsOwnedIn, LeavesItem, LeavesStop};
ghost use Rattle.graph_edges.specs.inner.Taken.{LeavesOneItem, LeavesOneStep};

use crate::pairs::add_pairs;
use crate::plans::BothPlans;
use flow_term::{Edge, List, Node};
use graph_shape::{
    Kept, Plans, Side, add_at, add_child, add_opened, child_bits, child_count, is_passing, mirrored,
};
use path_tree::PathTree;
use rule_plans::{Step, Stop, reached};
use std::alloc::{AllocError, Global};

/// Adds the edges that a position owns, where it is entered. An edge may be added more than once.
pub fn add_owned(
    alloc: Global,
    plans: &BothPlans,
    shape: &PathTree<Kept>,
    path: &[u32],
    out: &mut List<Edge>,
) -> Result<(), AllocError>
    requires { HasFewChildren shape.now }
    ensures { OnOk result (Gains out.old out.new (IsOwnedIn plans.now shape.now path.now)) }
{
    if shape.value.summary.list {
        return add_between(alloc, plans, shape, path, out);
    }
    let bits = child_bits(alloc, shape.children.as_slice())?;
    let steps = plans.forth.steps(shape.value.summary.rule);
    add_by_steps(alloc, plans, steps, bits.as_slice(), shape, path, out)
}

/// Adds the edges that leave the stops from which steps lead.
fn add_by_steps(
    alloc: Global,
    plans: &BothPlans,
    steps: &[Step],
    bits: &[bool],
    shape: &PathTree<Kept>,
    path: &[u32],
    out: &mut List<Edge>,
) -> Result<(), AllocError>
    requires { HasFewChildren shape.now }
    ensures { OnOk result (Gains out.old out.new (LeavesOneStep plans.now steps.now bits.now (children_of shape.now) path.now steps.now)) }
{
    for step in steps {
        add_leaving(alloc, plans, steps, bits, shape, path, step.from, out)?;
    }
    Ok(())
}

/// Adds the edges from the nodes at a stop to those at the stops that it leads to.
fn add_leaving(
    alloc: Global,
    plans: &BothPlans,
    steps: &[Step],
    bits: &[bool],
    shape: &PathTree<Kept>,
    path: &[u32],
    from: Stop,
    out: &mut List<Edge>,
) -> Result<(), AllocError>
    requires { HasFewChildren shape.now }
    ensures { OnOk result (Gains out.old out.new (LeavesStop plans.now steps.now bits.now (children_of shape.now) path.now from)) }
{
    let mut sources = List::new(alloc);
    add_at(
        alloc,
        &plans.back,
        Side::Last,
        shape,
        path,
        mirrored(from),
        &mut sources,
    )?;
    if sources.len() == 0 {
        return Ok(());
    }
    let found = reached(alloc, steps, bits, from)?;
    let mut targets = List::new(alloc);
    add_opened(
        alloc,
        &plans.forth,
        Side::First,
        shape,
        path,
        found.as_slice(),
        &mut targets,
    )?;
    add_pairs(sources.as_slice(), targets.as_slice(), out)
}

/// Adds the edges from each item of a list to the items behind it.
fn add_between(
    alloc: Global,
    plans: &BothPlans,
    shape: &PathTree<Kept>,
    path: &[u32],
    out: &mut List<Edge>,
) -> Result<(), AllocError>
    requires { HasFewChildren shape.now }
    ensures { OnOk result (Gains out.old out.new (LeavesOneItem plans.now (children_of shape.now) path.now (length (children_of shape.now)))) }
{
    for at in 0..child_count(shape) {
        add_behind(alloc, plans, shape, path, at, out)?;
    }
    Ok(())
}

/// Adds the edges from an item of a list to the items behind it.
fn add_behind(
    alloc: Global,
    plans: &BothPlans,
    shape: &PathTree<Kept>,
    path: &[u32],
    at: u32,
    out: &mut List<Edge>,
) -> Result<(), AllocError>
    requires few { HasFewChildren shape.now }
    requires within { at < length (children_of shape.now) }
    ensures { OnOk result (Gains out.old out.new (LeavesItem plans.now (children_of shape.now) path.now at)) }
{
    let mut sources = List::new(alloc);
    add_child(
        alloc,
        &plans.back,
        Side::Last,
        shape,
        path,
        at,
        &mut sources,
    )?;
    if sources.len() == 0 {
        return Ok(());
    }
    let mut targets = List::new(alloc);
    add_firsts_from(alloc, &plans.forth, shape, path, at + 1, &mut targets)?;
    add_pairs(sources.as_slice(), targets.as_slice(), out)
}

/// Adds the first nodes of a list from an item on.
fn add_firsts_from(
    alloc: Global,
    plans: &Plans,
    shape: &PathTree<Kept>,
    path: &[u32],
    start: u32,
    out: &mut List<Node>,
) -> Result<(), AllocError>
    requires few { HasFewChildren shape.now }
    requires within { start ≤ length (children_of shape.now) }
    ensures { OnOk result (Gains out.old out.new (IsFirstFromItem plans.now (children_of shape.now) path.now start (length (children_of shape.now)))) }
{
    for at in start..child_count(shape) {
        add_child(alloc, plans, Side::First, shape, path, at, out)?;
        if !is_passing(shape.children.as_slice(), at as usize) {
            return Ok(());
        }
    }
    Ok(())
}
