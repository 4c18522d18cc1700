//! The control-flow graph of a tree, kept as a shape: what each position is known by, from which nodes and edges are listed.
#![tactic(auto)]

mod graph;
mod sorted;

pub use graph::Graph;
