//! What the replacement of a part of a tree changes of its constraints.
//!
//! Which constraints only one of two trees has, from what only the graph of one has and from the positions that are matched
//! otherwise.
//!
//! Definitions, and no code: each function states a law as its contract and does nothing.
#![tactic(auto)]

mod laws;

pub use laws::{
    gone_by_parts, others_stay, same_terms_match_alike, unknowns_go_with_nodes,
    what_is_on_gone_is_gone,
};
