//! The edges of which a position is an owner, listed from what is kept of it and of its children.
#![tactic(auto)]

mod laws;
mod owned;
mod pairs;
mod plans;
mod walk;

pub use laws::{edges_are_by_shape, owned_edges_are_by_shape, roots_own_alike};
pub use owned::add_owned;
pub use plans::BothPlans;
pub use walk::add_below;
