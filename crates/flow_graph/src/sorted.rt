//! Edges in order.
ghost use Rattle.std.specs.Prelude.{◌≡◌, ◌↔◌, [], Contains, IfOk, OnOk};
ghost use Rattle.std.specs.List.Sorted.{IsStrictlySortedBy};
ghost use Rattle.flow_term.specs.declared.graph.Edge.{Edge as EdgeValue};
ghost use Rattle.flow_term.specs.Orders.{edge_cmp};
ghost use Rattle.flow_links.specs.inner.Gains.{Gains};

use flow_term::{Edge, Element, List};
use std::alloc::{AllocError, Global};
use std::collections::BTreeSet;

/// The edges in order, each once.
pub fn sorted_edges(alloc: Global, edges: &[Edge]) -> Result<List<Edge>, AllocError>
    ensures same { IfOk result (λ sorted. (e : EdgeValue) → Contains sorted e ↔ Contains edges.now e) }
    ensures ordered { IfOk result (IsStrictlySortedBy edge_cmp) }
{
    let set = edge_set(alloc, edges)?;
    in_order(alloc, set)
}

fn edge_set(alloc: Global, edges: &[Edge]) -> Result<BTreeSet<Edge>, AllocError>
    ensures { IfOk result (λ set. Gains [] set.keys (Contains edges.now)) }
{
    let mut set = BTreeSet::new(alloc);
    for edge in edges {
        add(&mut set, edge.duplicate()?)?;
    }
    Ok(set)
}

/// Adds an item, unless it is there.
fn add<T: Element>(set: &mut BTreeSet<T>, item: T) -> Result<(), AllocError>
    ensures { OnOk result (Gains set.old.keys set.new.keys (λ x. x ≡ item)) }
{
    set.insert(item)?;
    Ok(())
}

/// The items of a set, in order.
fn in_order<T: Element>(alloc: Global, set: BTreeSet<T>) -> Result<List<T>, AllocError>
    ensures same { IfOk result (λ list. list ≡ set.keys) }
    ensures ordered { IfOk result (λ list. IsStrictlySortedBy T.cmp set.keys) }
{
    Ok(List::from_vec(set.into_iter().collect(alloc)?))
}
