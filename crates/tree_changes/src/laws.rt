//! Which constraints and unknowns differ between two trees.
ghost use Rattle.tree_changes.specs.Laws.{GoneByParts, OthersStay, SameTermsMatchAlike, UnknownsGoWithNodes, WhatIsOnGoneIsGone};

/// A position with the same term in both trees is matched alike.
pub fn same_terms_match_alike()
    ensures { SameTermsMatchAlike }
{}

/// A constraint that runs along no gone edge, stands at no boundary of a gone node and aims at no changed position is one of
/// the new tree too, with the same rule and bindings.
pub fn others_stay()
    ensures { OthersStay }
{}

/// The new tree has no constraint along a gone edge, nor at the boundary of a gone node.
pub fn what_is_on_gone_is_gone()
    ensures { WhatIsOnGoneIsGone }
{}

/// The gone constraints are those on the gone part of the graph, and of those that aim at changed positions the ones that
/// the new tree hasn't.
pub fn gone_by_parts()
    ensures { GoneByParts }
{}

/// The gone unknowns are those of the gone nodes.
pub fn unknowns_go_with_nodes()
    ensures { UnknownsGoWithNodes }
{}
