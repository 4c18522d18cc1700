//! Rows of numbers, turned round: from what each number has to which numbers have it.
#![tactic(auto)]

mod group;
mod rows;
mod turn;

pub use group::grouped;
pub use rows::{empty_rows, push_at};
pub use turn::turned;
