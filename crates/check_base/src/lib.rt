//! What all checks of a specification share: the earliest fault, of the least place and then of the first kind, and what the
//! names of a specification stand for, looked up by hash.
#![tactic(auto)]

mod declared;
mod earliest;
mod names;
mod table;

pub use declared::Declared;
pub use earliest::Earliest;
pub use names::{Names, names_of};
pub use table::put_first;
