use crate::pattern::Pattern;
use flow_term::{List, Text};

/// What an item of a chain is.
#[derive(Debug, Drop)]
pub enum ItemKind {
    /// `entry`: where control comes in.
    Entry,
    /// `exit`: where control leaves.
    Exit,
    /// `start`: where control starts, in a root rule.
    Start,
    /// `end`: where control ends, in a root rule.
    End,
    /// `this`: the term itself as one node.
    This,
    /// The item `x`.
    Whole(Text),
    /// The item `node x`.
    Single(Text),
}

/// An item of a chain, with the offset of its first byte.
#[derive(Debug, Drop)]
pub struct Item {
    /// The offset of its first byte in the text of the specification.
    pub place: u64,
    /// What it stands for.
    pub kind: ItemKind,
}

/// A chain: control passes its items in their order.
#[derive(Debug, Drop)]
pub struct Chain {
    /// The items, in their order.
    pub items: List<Item>,
}

/// A control rule: in which order control passes the parts of the terms that its head matches.
#[derive(Drop)]
pub struct FlowRule {
    /// The offset of its first byte in the text of the specification.
    pub place: u64,
    /// Whether it is a root rule.
    pub root: bool,
    /// What a term of this rule matches.
    pub head: Pattern,
    /// The chains, in the order of the text: each is a way of control.
    pub chains: List<Chain>,
}
