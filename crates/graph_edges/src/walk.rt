//! The edges of a tree, by a walk over its shape.
ghost use Rattle.std.specs.Prelude.{◌≡◌, OnOk, length, true};
ghost use Rattle.std.specs.List.{list_any};
ghost use Rattle.path_tree.specs.Shapes.{children_of};
ghost use Rattle.flow_links.specs.inner.Gains.{Gains};
ghost use Rattle.graph_shape.specs.Outer.{HasFewChildren};
ghost use Rattle.graph_edges.specs.Below.{IsEdgeBelow, counts, enters_part, is_entry_of, is_exit_of, is_root, touches};
ghost use Rattle.graph_edges.specs.Owned.{IsOwnedIn};
ghost use Rattle.graph_edges.specs.inner.Taken.{IsEdgeInChild, IsEdgeInChildren};

use crate::owned::add_owned;
use crate::plans::BothPlans;
use flow_term::{Edge, List, Path};
use graph_shape::{Kept, child_count, child_path};
use path_tree::PathTree;
use rule_plans::{Step, Stop};
use std::alloc::{AllocError, Global};

/// Adds the edges that the positions at and below one own, where `entered` says whether that one is entered. An edge may be added more than once.
#[cycle(walk)]
pub fn add_below(
    alloc: Global,
    plans: &BothPlans,
    entered: bool,
    shape: &PathTree<Kept>,
    path: &[u32],
    out: &mut List<Edge>,
) -> Result<(), AllocError>
    requires few { HasFewChildren shape.now }
    ensures { OnOk result (Gains out.old out.new (λ e. IsEdgeBelow plans.now e entered shape.now path.now)) }
{
    add_here(alloc, plans, entered, shape, path, out)?;
    add_children(alloc, plans, entered, shape, path, out)
}

#[cycle(walk)]
fn add_children(
    alloc: Global,
    plans: &BothPlans,
    entered: bool,
    shape: &PathTree<Kept>,
    path: &[u32],
    out: &mut List<Edge>,
) -> Result<(), AllocError>
    requires few { HasFewChildren shape.now }
    ensures { OnOk result (Gains out.old out.new (IsEdgeInChildren plans.now entered shape.now path.now (length (children_of shape.now)))) }
{
    for at in 0..child_count(shape) {
        add_child(alloc, plans, entered, shape, path, at, out)?;
    }
    Ok(())
}

#[cycle(walk)]
fn add_child(
    alloc: Global,
    plans: &BothPlans,
    entered: bool,
    shape: &PathTree<Kept>,
    path: &[u32],
    at: u32,
    out: &mut List<Edge>,
) -> Result<(), AllocError>
    requires few { HasFewChildren shape.now }
    ensures { OnOk result (Gains out.old out.new (IsEdgeInChild plans.now entered shape.now path.now at)) }
{
    match shape.children.as_slice().get(at as usize) {
        None => Ok(()),
        Some(child) => {
            let below = child_path(alloc, path, at)?;
            let enters = is_entered(plans, entered, shape, at);
            add_below(alloc, plans, enters, child, below.as_slice(), out)
        }
    }
}

/// Adds the edges that a position owns, if it counts.
fn add_here(
    alloc: Global,
    plans: &BothPlans,
    entered: bool,
    shape: &PathTree<Kept>,
    path: &[u32],
    out: &mut List<Edge>,
) -> Result<(), AllocError>
    requires { HasFewChildren shape.now }
    ensures { OnOk result (Gains out.old out.new (λ e. (counts plans.now entered shape.now ≡ true) × IsOwnedIn plans.now shape.now path.now e)) }
{
    if !does_count(plans, entered, shape) {
        return Ok(());
    }
    add_owned(alloc, plans, shape, path, out)
}

fn does_count(plans: &BothPlans, entered: bool, shape: &PathTree<Kept>) -> bool
    ensures { result ≡ counts plans.now entered shape.now }
{
    is_root_rule(plans.roots.as_slice(), shape.value.summary.rule) || entered
}

fn is_root_rule(roots: &[bool], rule: Option<u32>) -> bool
    ensures { result ≡ is_root roots.now rule }
{
    match rule {
        None => false,
        Some(number) => match roots.get(number as usize) {
            None => false,
            Some(root) => *root,
        },
    }
}

/// Whether the child with this number is entered.
fn is_entered(plans: &BothPlans, entered: bool, shape: &PathTree<Kept>, at: u32) -> bool
    ensures { result ≡ enters_part plans.now entered shape.now at }
{
    if shape.value.summary.list {
        return entered;
    }
    does_count(plans, entered, shape) && is_touched(plans.forth.steps(shape.value.summary.rule), at)
}

/// Whether one of the steps leads into the child, or out of it.
fn is_touched(steps: &[Step], child: u32) -> bool
    ensures { result ≡ list_any (touches child) steps.now }
{
    steps.iter().any(|step| is_touching(*step, child))
}

fn is_touching(step: Step, child: u32) -> bool
    ensures { result ≡ touches child step }
{
    is_entry(step.to, child) || is_exit(step.from, child)
}

fn is_entry(stop: Stop, child: u32) -> bool
    ensures { result ≡ is_entry_of child stop }
{
    match stop {
        Stop::ChildEntry(k) => k == child,
        _ => false,
    }
}

fn is_exit(stop: Stop, child: u32) -> bool
    ensures { result ≡ is_exit_of child stop }
{
    match stop {
        Stop::ChildExit(k) => k == child,
        _ => false,
    }
}
