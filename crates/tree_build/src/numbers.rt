//! Nodes by number.
ghost use Rattle.std.specs.Prelude.{◌≡◌, ◌<◌, Contains, IfOk, length};
ghost use Rattle.std.specs.List.Sorted.{IsStrictlySortedBy};
ghost use Rattle.flow_term.specs.Orders.{node_cmp};
ghost use Rattle.tree_build.specs.Numbers.{node_of};

use flow_term::Node;
use indexmap::IndexSet;
use std::alloc::{AllocError, Global};

/// The nodes, numbered by their places.
pub(crate) fn numbered(alloc: Global, nodes: &[Node]) -> Result<IndexSet<Node>, AllocError>
    requires { IsStrictlySortedBy node_cmp nodes.now }
    ensures { IfOk result (λ numbers. numbers.keys ≡ nodes.now) }
{
    let mut numbers = IndexSet::new(alloc);
    for node in nodes {
        numbers.insert(node.duplicate()?)?;
    }
    Ok(numbers)
}

/// The number of a node.
pub(crate) fn number_of(numbers: &IndexSet<Node>, node: &Node) -> usize
    requires { Contains numbers.now.keys node.now }
    ensures within { result < length numbers.now.keys }
    ensures is { node_of numbers.now.keys result ≡ node.now }
{
    numbers.get_index_of(node).unwrap()
}
