//! The solution of a tree, as lists.
use flow_term::{Edge, List, Node, Valued};

/// The nodes and edges of a tree's control-flow graph, and the least values of its properties, each in order.
#[derive(Drop)]
pub struct Solution {
    /// The nodes, rising.
    pub nodes: List<Node>,
    /// The edges, rising.
    pub edges: List<Edge>,
    /// Each unknown, rising, with its value.
    pub values: List<Valued>,
}
