//! The faults of the declarations of a specification, and the directions of its properties.
#![tactic(auto)]

mod check;
mod direction;
mod repeated;
mod section;
mod size;
mod types;
mod unknown;

pub use check::check_declarations;
pub use direction::directions;
