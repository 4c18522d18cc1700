//! Ways over links, and how the ways of a whole are put together from those of its parts. The control-flow graph of a tree
//! is such a whole at each position, and the children of the position are its parts.
//!
//! The crate has definitions and lemmas alone, for every type of points and of labels of exits.
#![tactic(auto)]
