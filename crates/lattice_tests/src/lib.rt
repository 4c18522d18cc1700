//! The tests of the lattices at concrete types, and of the lists that a worklist solver keeps.
#![tactic(auto)]

#[cfg(test)]
mod by_type;
#[cfg(test)]
mod generic;
#[cfg(test)]
mod joins;
#[cfg(test)]
mod lists;
#[cfg(test)]
mod sets;
#[cfg(test)]
mod tables;
