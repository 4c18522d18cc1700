//! Which position owns an edge, and what a position is known by.
ghost use Rattle.graph_laws.specs.Laws.{EdgesAreOwned, KnownBySteps, ListsKnownByItems, OwnersAreCommonPrefixes, StepsAreHops};

/// The edges of a tree are exactly those that its positions own. An edge may have more than one owner, as one in two nested loops has.
pub fn edges_are_owned()
    ensures { EdgesAreOwned }
{}

/// The owner of an edge stands at a common prefix of the paths of the edge's nodes.
pub fn owners_are_common_prefixes()
    ensures { OwnersAreCommonPrefixes }
{}

/// The first nodes of a position, its last nodes and its passing are what its own steps reach: so they follow from its links and from those of its children.
pub fn positions_are_known_by_steps()
    ensures { KnownBySteps }
{}

/// The ways of a position's steps are found by a closure over its own links and the children that are passed, with a last node of a child before them and
/// a first node of a child behind them.
pub fn steps_are_hops()
    ensures { StepsAreHops }
{}

/// An entered list that no rule matches owns the edges from a last node of an item to a first node of a later one where all items between are passed. Its
/// first nodes, last nodes and passing go by its items likewise.
pub fn lists_are_known_by_items()
    ensures { ListsKnownByItems }
{}
