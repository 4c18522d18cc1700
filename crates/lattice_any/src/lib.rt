//! The types of a specification as lattices, and the texts of their values.
#![tactic(auto)]

mod any;
mod copy;
mod join;
mod laws;
mod member;
mod named;
mod names;
mod order;
mod parts;
mod same;
mod tables;

pub use any::AnyL;
pub use laws::{
    declared_types_have_their_domains, map_joins_are_pointwise,
    set_joins_are_unions_and_intersections,
};
pub use named::NamedTable;
pub use tables::{DeclaredTable, Tables};
pub use value_text::{ValueRefusal, has_text, read_value, write_value};
