//! Certificates.
use flow_term::{Edge, List, Valued};
use tree_constraints::Key;

/// What is claimed of a tree: the edges of its graph, the values of its properties, and the steps by which they come about.
#[derive(Drop)]
pub struct Certificate {
    /// The edges, rising.
    pub edges: List<Edge>,
    /// The constraints whose values are joined to their targets, one after another, from bottom everywhere on.
    pub steps: List<Key>,
    /// Each unknown, rising, with its value.
    pub values: List<Valued>,
}
