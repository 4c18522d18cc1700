//! The constraints of a tree as a system that a worklist solves.
//!
//! A [`TreeSystem`] holds the constraints and the unknowns of a tree by number, with tables of what each aims at and reads and of who
//! reads and aims at each, so that the solver compares no path. [`Bodies`] stands for what evaluates the bodies of rules.
#![tactic(auto)]

mod bodies;
mod build;
mod reading;
mod rows;
mod system;

pub use bodies::{Bodies, Reading, Reads};
pub use reading::Bases;
pub use system::{TreeSystem, Unchanged};
