//! What the listed edges are. Each function states a law as its contract and does nothing.
ghost use Rattle.graph_edges.specs.Laws.{EdgesAreByShape, OwnedEdgesAreByShape, UnenteredOwn};

/// The edges that a position owns by its shape are those that it owns by the definitions, where it is entered.
pub fn owned_edges_are_by_shape()
    ensures { OwnedEdgesAreByShape }
{}

/// A position that isn't entered owns the edges that it would own entered, if a root rule matches it, and no others.
pub fn roots_own_alike()
    ensures { UnenteredOwn }
{}

/// The edges that are listed from the shape of a tree are the edges of the tree.
pub fn edges_are_by_shape()
    ensures { EdgesAreByShape }
{}
