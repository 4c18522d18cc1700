//! Specifications from tokens: a recursive descent with one token of choice.
//!
//! `parse` answers the specification that the tokens are, or the first token that can't go on or is nested too deep. Expressions,
//! patterns and types have parsers of their own in the crates below.
#![tactic(auto)]

mod declaration;
mod message;
mod parser;
mod refusal;
mod rule;
mod sections;
mod whole;

pub use parser::parse;
pub use refusal::{ParseFaultKind, ParseRefusal};
