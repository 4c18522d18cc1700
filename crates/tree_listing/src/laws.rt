//! What holds of the lists of a tree's constraints and unknowns.
ghost use Rattle.tree_listing.specs.Laws.{ConstraintsAreInUse, EdgesJoinNodes, ListingIsExact, NumbersAreByPlace, PropertiesAreOne, PropertiesExist, TreesHaveLists, UnknownsAreByPlace, UnknownsAreCounted};

/// What is listed by properties, nodes and edges are exactly the constraints of the tree and exactly its unknowns, in order.
pub fn listing_is_exact()
    ensures { ListingIsExact }
{}

/// Each specification has a list of its properties by name.
pub fn properties_exist()
    ensures { PropertiesExist }
{}

/// It has one such list at most.
pub fn properties_are_one()
    ensures { PropertiesAreOne }
{}

/// A tree whose nodes and edges are listed has a list of its constraints and a list of its unknowns, whatever the
/// specification.
pub fn trees_have_lists()
    ensures { TreesHaveLists }
{}

/// An edge leads from a node of the tree to a node of it.
pub fn edges_join_nodes()
    ensures { EdgesJoinNodes }
{}

/// What a tree's constraints aim at and read are unknowns of the tree, and the nodes from which their values come are nodes
/// of it.
pub fn constraints_are_in_use()
    ensures { ConstraintsAreInUse }
{}

/// There are as many unknowns as nodes times properties.
pub fn unknowns_are_counted()
    ensures { UnknownsAreCounted }
{}

/// The unknown of a property at a node stands at the node's number times the number of properties, and the property's place.
pub fn unknowns_are_by_place()
    ensures { UnknownsAreByPlace }
{}

/// Where nodes and properties are in order, it stands at no other place: that is its number.
pub fn numbers_are_by_place()
    ensures { NumbersAreByPlace }
{}
