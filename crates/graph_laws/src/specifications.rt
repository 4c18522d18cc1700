//! What accepted specifications have: the premises of the laws of edges.
ghost use Rattle.graph_laws.specs.Laws.{HeadsAreShallow, ItemsArePlaced, ListsHaveNoRule, PatternsAreShallow};

/// In a specification without faults no item of a chain stands where it can't: `entry` and `start` are first, `exit` and `end` last.
pub fn items_are_placed()
    ensures { ItemsArePlaced }
{}

/// In a specification without faults no head looks deeper than eight levels.
pub fn heads_are_shallow()
    ensures { HeadsAreShallow }
{}

/// Nor does any other of its patterns.
pub fn patterns_are_shallow()
    ensures { PatternsAreShallow }
{}

/// Where all heads are applications, as the grammar has them, no rule matches a list.
pub fn lists_have_no_rule()
    ensures { ListsHaveNoRule }
{}
