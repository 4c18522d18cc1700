//! The tests of the whole program and of the calls that no command reaches.
//!
//! Cases stand as rows of texts, `TEXT => TOLD`, a table a topic; `rows` has their form.
#![tactic(auto)]

#[cfg(test)]
mod commands;
#[cfg(test)]
mod files;
#[cfg(test)]
mod graphs;
#[cfg(test)]
mod lexical;
#[cfg(test)]
mod modes;
#[cfg(test)]
mod nesting;
#[cfg(test)]
mod paths;
#[cfg(test)]
mod program;
#[cfg(test)]
mod rows;
#[cfg(test)]
mod scripts;
#[cfg(test)]
mod signatures;
#[cfg(test)]
mod sorts;
#[cfg(test)]
mod specifications;
#[cfg(test)]
mod syntax;
#[cfg(test)]
mod trees;
#[cfg(test)]
mod values;
