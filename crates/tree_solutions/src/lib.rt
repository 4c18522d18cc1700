//! From a solved system of constraints to the solution of its tree, and from its bound to the tree's.
//!
//! A solver's system knows its constraints, not its tree. Its heights go by the elements that the constraints bring: what the
//! variables of their rules stand for, and texts and items of the specification. Definitions and laws, and no code: each
//! function states a law as its contract and does nothing.
#![tactic(auto)]

mod laws;

pub use laws::{
    analyses_are_one, brought_are_no_more, brought_bounds_are_within, brought_systems_are_lawful,
    properties_are_declared, rules_are_there, rules_can_be_evaluated, settled_is_analysis,
};
