//! The faults of the expressions of a specification, and their inferred types.
#![tactic(auto)]

mod form;
mod names;
mod notes;
mod own;
mod rules;
mod scope;
mod variables;
mod walk;

pub use rules::check_expressions;
