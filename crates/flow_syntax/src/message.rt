use crate::expr::Expr;
use crate::pattern::Pattern;
use crate::spec::Named;
use flow_term::{List, Text};

/// A message at each node whose term the pattern matches, where the condition holds.
#[derive(Drop)]
pub struct Message {
    /// The offset of its first byte in the text of the specification.
    pub place: u64,
    /// Its level: how grave what it tells is.
    pub level: Level,
    /// What it says, part after part.
    pub parts: List<Part>,
    /// What the term at the node is to match.
    pub pattern: Pattern,
    /// What is to hold at the node. `None`: nothing more.
    pub condition: Option<Expr>,
}

/// The level of a message: how grave what it tells is.
#[derive(Clone, Copy, Debug, PartialEq, Eq)]
pub enum Level {
    /// `error`: what it tells is wrong.
    Error,
    /// `warning`: what it tells may be wrong.
    Warning,
    /// `note`: what it tells is good to know.
    Note,
}

/// A part of a message's words.
#[derive(Debug, Drop)]
pub enum Part {
    /// A text, as it stands.
    Words(Text),
    /// What a variable of the pattern is bound to.
    Bound(Named),
}
