use flow_match::RuleHit;
use flow_term::List;

/// What a graph keeps of a position.
#[derive(Drop)]
pub struct Kept {
    /// What control does there.
    pub summary: Summary,
    /// The rules of properties that match there, with what they bind.
    pub hits: List<RuleHit>,
}

/// What control does at a position. It follows from the position's term alone.
#[derive(Clone, Copy, Debug, PartialEq, Eq)]
pub struct Summary {
    /// The number of the control rule that matches, if one does.
    pub rule: Option<u32>,
    /// Whether the position is a list.
    pub list: bool,
    /// Whether control passes the position without a node, where it is entered.
    pub passes: bool,
}
