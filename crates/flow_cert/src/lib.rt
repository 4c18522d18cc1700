//! What an analysis of a tree gives out.
#![tactic(auto)]

mod laws;
mod solution;

pub use laws::solutions_are_one;
pub use solution::Solution;
