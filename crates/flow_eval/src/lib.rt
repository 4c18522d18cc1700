//! Specifications that are accepted: their lattices are lattices, their functions monotone, and the bodies of their rules rise with
//! what they read.
//!
//! [`Ready::prepare`] accepts a specification, with the tables of its lattices and functions, or hands it back with the first thing
//! for which it is refused.
#![tactic(auto)]

mod functions;
mod lattices;
mod laws;
mod ready;
mod refusal;

pub use lattices::lattice_number;
pub use laws::{bodies_of_ready_rise, ready_is_analysed, specifications_have_one_answer};
pub use ready::Ready;
pub use refusal::PrepareRefusal;
