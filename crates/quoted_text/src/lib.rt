//! Texts between quotes: what an escape stands for, and how a byte is spelled.
#![tactic(auto)]

mod escape;
mod spelling;
mod writer;

pub use escape::{is_octal, octal_byte, short_escape};
pub use spelling::Spelling;
pub use writer::push_quoted;
