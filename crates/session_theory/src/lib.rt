//! Sessions: trees that are edited while their constraints are solved, and the whole output of commands.
//!
//! Each function states a law as its contract and does nothing.
#![tactic(auto)]

mod commands;
mod edits;
mod files;
mod moments;

pub use commands::{
    Commanded, commands_keep_moments_sound, outputs_go_on, sessions_refuse_nothing,
    spent_has_cause, trees_follow_edits,
};
pub use edits::{Recorded, repairs_are_sound, repairs_exist, restarts_are_sound};
pub use files::{Taking, no_refusals_end_alike, requests_end_alike};
pub use moments::{
    Analysis, settled_is_least, settles_in_the_end, settles_or_spends, spent_is_below_bound,
    visits_keep_moments_sound,
};
