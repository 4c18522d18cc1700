//! The constraints and the unknowns of a tree as lists, made of its nodes, its edges and the properties.
//!
//! What a tree's constraints are is a relation. Here stands the list that code can build loop by loop, that it is the list of
//! the relation, and which number each unknown has in it.
//!
//! Definitions, and no code but a type: each function states a law as its contract and does nothing.
#![tactic(auto)]

mod laws;
mod property;

pub use laws::{
    constraints_are_in_use, edges_join_nodes, listing_is_exact, numbers_are_by_place,
    properties_are_one, properties_exist, trees_have_lists, unknowns_are_by_place,
    unknowns_are_counted,
};
pub use property::Property;
