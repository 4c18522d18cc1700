//! The control-flow graph of a tree: its links, its nodes and its edges, worked out plainly from the definitions.
//!
//! `links` gives the steps between points that the control rules make, `plain_nodes` the points that a rule names,
//! `plain_edges` the ways from node to node, by closure over the links, and `plain_graph` both.
#![tactic(auto)]

mod chain;
mod collect;
mod edges;
mod graph;
mod here;
mod link_set;
mod nodes;
mod numbers;
mod ordered_set;
mod points;
mod reach;
mod rules;

pub use collect::links;
pub use edges::plain_edges;
pub use flow_term::{Link, Point};
pub use graph::{PlainGraph, plain_graph};
pub use nodes::plain_nodes;
pub use rules::argument_number;
