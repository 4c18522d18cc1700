//! The one text of a value, both ways.
#![tactic(auto)]

mod bytes;
mod elems;
mod form;
mod identifier;
mod laws;
mod limits;
mod quoted;
mod reader;
mod refusal;
mod values;
mod writer;

pub use form::{elems_rise, has_text, keys_rise};
pub use identifier::is_identifier;
pub use laws::texts_have_one_value;
pub use limits::steps_are_small;
pub use reader::read_value;
pub use refusal::ValueRefusal;
pub use writer::{push_position, push_value, write_value};
