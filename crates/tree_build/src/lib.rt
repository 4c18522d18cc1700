//! The constraints and the unknowns of a tree, built from its nodes and edges.
//!
//! Rules are found once a node, whatever the number of edges, and nodes are told apart by numbers once each has one: a path is
//! looked up for each end of an edge, and otherwise only copied into what is built.
#![tactic(auto)]

mod constraints;
mod ends;
mod hits;
mod numbers;
mod origins;
mod properties;
mod targets;
mod unknowns;

pub use constraints::constraints_of;
pub use ends::{Ends, Rows};
pub use properties::Properties;
pub use targets::{targets_are_right, targets_of};
pub use unknowns::unknowns_of;
