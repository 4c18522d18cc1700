//! What a graph keeps of a tree: a record for each position, of the form of the tree.
#![tactic(auto)]

mod building;
mod kept;
mod laws;
mod outer;
mod passing;
mod paths;
mod planning;
mod plans;
mod replacing;
mod turning;

pub use building::build;
pub use kept::{Kept, Summary};
pub use laws::{
    outer_nodes_are_by_shape, plans_can_be_turned, positions_are_known_by_stops, shapes_stay_shapes,
};
pub use outer::{Side, add_at, add_child, add_opened, add_outer, child_count, is_passing};
pub use passing::{are_all_passed, child_bits, is_through};
pub use paths::child_path;
pub use plans::Plans;
pub use replacing::put_shape;
pub use turning::mirrored;
