//! Expressions from tokens: a recursive descent with one token of choice.
#![tactic(auto)]

mod builders;
mod exprs;
mod kinds;
mod primaries;

pub use exprs::expr;
pub use primaries::condition;
