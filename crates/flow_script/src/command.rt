//! The commands of a script.
use flow_term::{Path, Term};

/// What a line of a script asks for.
#[derive(Drop)]
pub enum Command {
    /// Put the term at the path.
    Edit(Path, Term),
    /// Make visits until nothing waits, or so many, below 10^19.
    Solve(u64),
    /// Settle, and write the solution.
    Print,
    /// Write the tree.
    Tree,
}

/// A command, and the number of its line in the script, counted from 1.
#[derive(Drop)]
pub struct Line {
    /// The number of the line.
    pub number: u64,
    /// The command.
    pub command: Command,
}
