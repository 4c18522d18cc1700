use flow_term::Path;

/// Why a subtree was not replaced.
#[derive(Debug, PartialEq, Eq, Drop)]
pub enum EditRefusal {
    /// The path is no position of the tree.
    NoPosition,
    /// The new tree doesn't fit the signature, first at this position.
    IllSorted(Path),
    /// The new tree would be too deep.
    TooDeep,
    /// The new tree would have too many terms.
    TooMany,
    /// Memory ran out.
    NoMemory,
}
