//! The control-flow graph of a tree, put together from those of its positions: which position owns an edge, and what a replacement leaves of it.
//!
//! A position makes links of its own and knows of each child its first nodes, its last nodes and whether control passes it. From these alone follow the
//! edges that it owns, and what its parent knows of it. Each edge of a tree is owned by some position, so an edit changes edges only at the positions of
//! which it changes the links or what they know.
//!
//! Each function states a law as its contract and does nothing.
#![tactic(auto)]

mod edges;
mod replacements;
mod specifications;

pub use edges::{
    edges_are_owned, lists_are_known_by_items, owners_are_common_prefixes,
    positions_are_known_by_steps, steps_are_hops,
};
pub use replacements::{
    alike_terms_bind_alike, alike_terms_match_alike, far_matches_stay, far_rules_stay,
    near_rules_suffice, nodes_outside_stay, owned_outside_stays, positions_stay_elsewhere,
    replacements_in_parts, replacements_leave_alike,
};
pub use specifications::{
    heads_are_shallow, items_are_placed, lists_have_no_rule, patterns_are_shallow,
};
