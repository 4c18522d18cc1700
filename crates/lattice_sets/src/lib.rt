//! Lattices of sets, single elements, maps and pairs.
#![tactic(auto)]

mod flat;
mod laws;
mod map;
mod map_lattice;
mod map_merge;
mod may;
mod must;
mod operations;
mod pair;
mod sorted_set;

pub use flat::{FlatL, FlatV};
pub use laws::{
    map_joins_are_pointwise, may_joins_are_unions, must_joins_are_intersections,
    puts_keep_maps_valid,
};
pub use map::MapV;
pub use map_lattice::MapL;
pub use may::MayL;
pub use must::{MustL, MustV};
pub use operations::{contains, includes, inter, minus, union};
pub use pair::{PairL, PairV};
pub use sorted_set::SortedSet;
