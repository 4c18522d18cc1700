//! What a lattice of values is, and a count of steps that costs nothing.
//!
//! An analysis implements [`Lattice`] for its values; the laws beside the trait's signatures are proved for each
//! implementation, and generic code may use them. [`Steps`] counts what its caller calls a step.
#![tactic(auto)]

mod lattice;
mod steps;

pub use lattice::{Lattice, below_is_an_order};
pub use steps::Steps;
