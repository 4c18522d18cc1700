//! Constraint systems by name: the same system under other keys, other unknowns and other values.
//!
//! A solver works on numbers, and keeps values as suits it; what it solves is said of nodes, rules and sets. A naming tells
//! what each number is called and for which value a kept one stands. The laws here carry the solver's states, visits,
//! solutions and edits over to the names, and the laws of the named system back to the numbers.
//!
//! Each function states a law as its contract and does nothing.
#![tactic(auto)]

mod edits;
mod naming;
mod numbering;

pub use edits::{edit_comes_back, edited_is_named, taint_is_named};
pub use naming::{
    begin_is_named, bound_is_named, order_comes_back, ranks_come_back, settled_is_least_by_name,
    sound_is_named, values_are_named, visits_are_named,
};
pub use numbering::{numbered_is_lawful, numbered_is_named};
