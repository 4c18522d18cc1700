//! Patterns against terms, what their variables stand for, and all rules that match at a position.
#![tactic(auto)]

mod bind;
mod firsts;
mod hits;
mod index;
mod indexed;
mod laws;
mod matched;
mod matching;
mod source;

pub use bind::matches;
pub use indexed::RuleIndex;
pub use laws::{patterns_bind_their_variables, patterns_bind_where_they_match};
pub use matched::{Matched, RuleHit, has_few_rules};
pub use matching::is_match;
pub use source::RuleSource;
