//! Lists of numbers, linked both ways: an item is put last, taken out and passed in a fixed number of steps.
//!
//! Contracts see `Chains` as plain lists and the number below which all items are allowed.
#![tactic(auto)]

mod chains;
mod changes;
mod links;
mod walks;

pub use chains::Chains;
pub use walks::ChainIter;
