//! The text of a term: the ATerm profile, read and written.
#![tactic(auto)]

mod class;
mod laws;
mod levels;
mod number;
mod open;
mod reader;
mod refusal;
mod writer;

pub use laws::texts_have_one_answer;
pub use reader::read;
pub use refusal::{TermFaultKind, TermRefusal};
pub use writer::write;
