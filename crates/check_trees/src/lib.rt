//! Whether a tree fits the signature of a specification, and the least position that doesn't.
#![tactic(auto)]

mod check;
mod constructors;
mod expected;
mod refusal;
mod search;

pub use check::{check_subtree, check_tree};
pub use constructors::Constructors;
pub use refusal::TreeRefusal;
