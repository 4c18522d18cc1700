//! Expressions made ready to be run: code with numbers in place of names, lattices and constants built once.
#![tactic(auto)]

mod code;

pub use code::{CallTable, Choice, Combination, ElemCode, EntryCode, Half, TruthCode, ValueCode};
