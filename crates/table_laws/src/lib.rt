//! Declared lattices and functions by the numbers of their elements: the laws of their tables, and which fault comes first.
//!
//! Definitions, and the type that they name. Each function states a law as its contract and does nothing; a caller's proof has the
//! law by calling it.
#![tactic(auto)]

mod fault;
mod laws;

pub use fault::LawFault;
pub use laws::{
    accepted_tables_are_complete, faultless_tables_are_lawful, lawful_numbers_make_lawful_tables,
    lawful_tables_have_lawful_numbers,
};
