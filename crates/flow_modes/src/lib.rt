//! Whether the bodies of a specification's rules rise with what they read.
#![tactic(auto)]

mod check;
mod table;
mod walk;

pub use check::{ModeFault, check_modes};
pub use flow_syntax::Mode;
