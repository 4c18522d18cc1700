//! Lattices and functions that are given by tables: they are taken exactly where they are lattices and monotone functions, and
//! otherwise the first fault is told.
//!
//! [`build`] makes a lattice of a table of joins, [`build_declared`] that of a declaration, [`build_unary`] and [`build_binary`]
//! functions between such lattices. Elements are numbers from 0, in the order of the declaration; in a table the last number
//! changes fastest.
#![tactic(auto)]

mod building;
mod declared;
mod disorder;
mod function;
mod function_building;
mod joins;
mod lattice;
mod law_faults;
mod refusal;
mod tuples;

pub use building::build;
pub use declared::{build_declared, number_of};
pub use function::TableFn;
pub use function_building::{build_binary, build_unary};
pub use lattice::TableL;
pub use refusal::{FunctionRefusal, TableRefusal};
pub use table_laws::LawFault;
