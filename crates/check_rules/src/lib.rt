//! Faults of control rules, of patterns, and of variables.
#![tactic(auto)]

mod bindings;
mod binds;
mod head;
mod items;
mod mixed;
mod name_set;
mod patterns;
mod rules;
mod variables;

pub use rules::check_rules;
pub use variables::check_variables;
