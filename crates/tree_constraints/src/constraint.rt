//! The constraints of a tree.
use flow_term::{Bindings, Node, Unknown};

/// Where the value of a constraint comes from.
#[derive(Drop)]
pub enum Origin {
    /// From where control begins, in the property's direction: from no other node.
    Boundary,
    /// Along an edge, from the node at its other end.
    Along(Node),
}

/// What tells a constraint of a tree from the others. Keys are ordered by target, then by origin, `Boundary` first.
#[derive(Drop)]
pub struct Key {
    /// The unknown whose value is to be above that of the constraint.
    pub target: Unknown,
    /// Where the value comes from.
    pub origin: Origin,
}

/// A constraint of a tree: all that its value depends on, beside the values that it reads.
#[derive(Drop)]
pub struct Constraint {
    /// What tells it from the others.
    pub key: Key,
    /// The number of the rule that gives its value, among the rules of all properties in the order of the text, from 0 on.
    /// `None`: its value is that of the target's property at the origin.
    pub rule: Option<u32>,
    /// What the variables of the rule's pattern stand for; none where there is no rule.
    pub bindings: Bindings,
}
