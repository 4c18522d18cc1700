//! The parsers of a specification's declarations: its signature, the types of its properties, and its tables.
//!
//! Each answers what reading its symbol of the grammar gives: the value and the tokens behind it, or the first fault.
#![tactic(auto)]

mod names;
mod signatures;
mod tables;
mod types;

pub use names::{read_constructor_name, read_name, read_names};
pub use signatures::{read_constructor, read_signature, read_tree_sort};
pub use tables::{read_enum, read_function, read_table};
pub use types::{read_elem_sort, read_property, read_type};
