//! What of a specification without faults the analysis doesn't take yet.
#![tactic(auto)]

mod first;
mod form;
mod refusal;

pub use first::only_simple;
pub use refusal::NotYet;
