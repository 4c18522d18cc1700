//! The texts of graphs and solutions.
#![tactic(auto)]

mod laws;
mod print;

pub use laws::{graphs_have_one_text, prints_are_one, prints_begin_with_graphs};
pub use print::{print_graph, print_solution};
