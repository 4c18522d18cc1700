//! The nodes from which values come, by number.
ghost use Rattle.std.specs.Prelude.{◌≡◌, ◌<◌, [], ◌∷◌, ◌++◌, ℕ, All, IfOk, OnOk, get_or, length, slice_set};
ghost use Rattle.std.specs.List.Sorted.{IsStrictlySortedBy};
ghost use Rattle.flow_term.specs.Orders.{node_cmp};
ghost use Rattle.tree_listing.specs.Listing.{arrives_by, comes_by};
ghost use Rattle.std.specs.Prelude.{List as Sequence};
ghost use Rattle.flow_term.specs.declared.graph.Edge.{Edge as EdgeValue};
ghost use Rattle.tree_build.specs.Numbers.{AreRows, HasEnds, row_of};

use crate::numbers::number_of;
use flow_syntax::Direction;
use flow_term::{Edge, List, Node};
use index_tables::{empty_rows, push_at};
use indexmap::IndexSet;
use std::alloc::{AllocError, Global};

/// For each node by its number, the numbers of the nodes from which values come to it.
#[derive(Drop)]
pub(crate) struct Origins {
    /// With the control flow: its predecessors.
    pub(crate) forward: Vec<List<usize>>,
    /// Against it: its successors.
    pub(crate) backward: Vec<List<usize>>,
}

impl Origins {
    /// The numbers of the nodes from which values come to the node with this number.
    pub(crate) fn row(&self, direction: Direction, number: usize) -> &[usize]
        requires forward { number < length self.now.forward.items }
        requires backward { number < length self.now.backward.items }
        ensures { result.now ≡ row_of self.now.forward.items self.now.backward.items direction number }
    {
        match direction {
            Direction::Forward => self.forward[number].as_slice(),
            Direction::Backward => self.backward[number].as_slice(),
        }
    }
}

/// The origins of all nodes, in both directions.
pub(crate) fn origins_of(
    alloc: Global,
    numbers: &IndexSet<Node>,
    edges: &[Edge],
) -> Result<Origins, AllocError>
    requires ordered { IsStrictlySortedBy node_cmp numbers.now.keys }
    requires ends { All (HasEnds numbers.now.keys) edges.now }
    ensures forward { IfOk result (λ o. AreRows Direction.Forward numbers.now.keys edges.now o.forward.items) }
    ensures backward { IfOk result (λ o. AreRows Direction.Backward numbers.now.keys edges.now o.backward.items) }
{
    Ok(Origins {
        forward: rows_of(alloc, numbers, edges, Direction::Forward)?,
        backward: rows_of(alloc, numbers, edges, Direction::Backward)?,
    })
}

fn rows_of(
    alloc: Global,
    numbers: &IndexSet<Node>,
    edges: &[Edge],
    direction: Direction,
) -> Result<Vec<List<usize>>, AllocError>
    requires ordered { IsStrictlySortedBy node_cmp numbers.now.keys }
    requires ends { All (HasEnds numbers.now.keys) edges.now }
    ensures { IfOk result (λ rows. AreRows direction numbers.now.keys edges.now rows.items) }
{
    let mut rows = empty_rows(alloc, numbers.len())?;
    for edge in edges {
        add_origin(numbers, edge, direction, &mut rows)?;
    }
    Ok(rows)
}

/// Puts the origin of an edge last into the row of the node at which its value arrives.
fn add_origin(
    numbers: &IndexSet<Node>,
    edge: &Edge,
    direction: Direction,
    rows: &mut Vec<List<usize>>,
) -> Result<(), AllocError>
    requires ordered { IsStrictlySortedBy node_cmp numbers.now.keys }
    requires ends { HasEnds numbers.now.keys edge.now }
    requires sizes { length rows.old.items ≡ length numbers.now.keys }
    ensures { OnOk result ((edges : Sequence EdgeValue) → AreRows direction numbers.now.keys edges rows.old.items → AreRows direction numbers.now.keys (edges ++ edge.now ∷ []) rows.new.items) }
{
    let arrival = number_of(numbers, arrival(edge, direction));
    let origin = number_of(numbers, origin(edge, direction));
    push_at(rows, arrival, origin)
}

/// The node at which the value of an edge arrives.
fn arrival(edge: &Edge, direction: Direction) -> &Node
    ensures { result.now ≡ arrives_by direction edge.now }
{
    match direction {
        Direction::Forward => &edge.to,
        Direction::Backward => &edge.from,
    }
}

/// The node from which it comes.
fn origin(edge: &Edge, direction: Direction) -> &Node
    ensures { result.now ≡ comes_by direction edge.now }
{
    match direction {
        Direction::Forward => &edge.from,
        Direction::Backward => &edge.to,
    }
}
