//! Trees with a value at each position, of the form of a term: what is kept of each position of a tree, found by its path.
//!
//! A part is looked up by descent along child numbers, so children that are put in or taken out rename none of those behind them. A whole part, a
//! value or a list of children is exchanged in one move, and no such call takes memory.
#![tactic(auto)]

mod items;
#[cfg(test)]
mod tests;
mod tree;

pub use tree::PathTree;
