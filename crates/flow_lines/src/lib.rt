//! The lines of counts, nodes, edges and values, of which the texts of graphs, solutions and certificates are made.
#![tactic(auto)]

mod lines;

pub use lines::{push_count, push_edges, push_node, push_nodes, push_values};
