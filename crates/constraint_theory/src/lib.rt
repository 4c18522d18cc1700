//! The theory of constraint systems that a worklist solves, for every type of keys, of unknowns and of values.
//!
//! A system has a constraint for each key: the value of the key's target is to be above what the constraint gives under
//! the values that it reads. A machine keeps the steps that were made and the keys that wait; its values are the replay
//! of the steps. What is said of solutions holds for every system with joins and monotone constraints; what bounds visits
//! holds where ranks end at a height too.
//!
//! Each function states a law as its contract and does nothing. Solvers, editors of systems and checkers of certificates
//! stand on the same definitions.
#![tactic(auto)]

mod edits;
mod solving;

pub use edits::{
    edit_keeps_sound, edit_renames_values, idle_gone_taints_nothing, taint_lies_in_region,
    visits_after_edit,
};
pub use solving::{
    begin_is_sound, least_is_unique, narrower_is_monotone, replay_is_least, settled_is_least,
    settled_is_least_of_valid, unfinished_visits_are_fewer, visits_are_bounded, visits_from_sound,
    visits_keep_sound, visits_within_bound,
};
