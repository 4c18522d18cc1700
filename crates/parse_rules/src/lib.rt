//! Reading of patterns, of control rules and of the triggers of rules, by recursive descent.
//!
//! Each public function reads one symbol of the grammar, and answers what reading by the grammar gives there: the value and the
//! tokens behind it, or the first fault.
#![tactic(auto)]

mod control;
mod kinds;
mod pattern;
mod trigger;

pub use control::{read_control_rule, read_head};
pub use pattern::read_pattern;
pub use trigger::read_trigger;
