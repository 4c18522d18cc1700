//! Texts by lines: which lines may stand where, and the first that may not.
#![tactic(auto)]

mod split;

pub use split::{behind, split_at};
