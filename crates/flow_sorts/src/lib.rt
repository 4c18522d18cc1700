//! Whether a specification that the grammar has is one without faults, whether the analysis takes it, and whether a tree fits it.
#![tactic(auto)]

mod check;
mod refusal;

pub use check::check_sorts;
pub use check_trees::{Constructors, TreeRefusal, check_subtree, check_tree};
pub use flow_syntax::SpecFaultKind;
pub use refusal::SpecRefusal;
pub use simple_rules::{NotYet, only_simple};
