//! The constraints of a tree, what they read and give, and their least solution.
//!
//! A specification's rules become a constraint for each property along each edge of a tree's control-flow graph, and one for
//! each property where control begins. The least assignment that satisfies them all is what an analysis works out.
//!
//! Definitions, and no code but the types: each function states a law as its contract and does nothing.
#![tactic(auto)]

mod constraint;
mod laws;

pub use constraint::{Constraint, Key, Origin};
pub use laws::{
    bindings_are_elements, bounds_are_within, constraints_are_one, constraints_keep_to_elements,
    included_are_no_more, keys_are_own, parts_tell, paths_are_positions, replays_are_solutions,
    solutions_are_one, systems_are_lawful, systems_are_monotone, trees_are_lawful,
    unknowns_are_one,
};
