//! What holds of the constraints of each tree.
ghost use Rattle.tree_constraints.specs.Laws.{BindingsAreElements, BoundsAreWithin, ConstraintsAreOne, ConstraintsKeepToElements, IncludedAreNoMore, KeysAreOwn, PartsTell, PathsArePositions, ReplaysAreSolutions, SolutionsAreOne, SystemsAreLawful, SystemsAreMonotone, TreesAreLawful, UnknownsAreOne};

/// The tests tell constraints and unknowns apart.
#[tactic(auto, using(crate::proofs::Exact::parts_tell))]
pub fn parts_tell()
    ensures { PartsTell }
{}

/// Two constraints of a tree with one key are equal.
#[tactic(auto, using(crate::proofs::Facts::keys_own))]
pub fn keys_are_own()
    ensures { KeysAreOwn }
{}

/// A tree has one list of its constraints in order, at most.
pub fn constraints_are_one()
    ensures { ConstraintsAreOne }
{}

/// A tree has one list of its unknowns in order, at most.
pub fn unknowns_are_one()
    ensures { UnknownsAreOne }
{}

/// The system of a tree is monotone over all values of its properties' types, whatever their elements, where the
/// specification has no fault, its tables are lawful, and each body is `Fixed` or `Up`: no constraint stands twice, targets
/// and reads are unknowns of the tree, each unknown has a lattice, and each constraint gives a value of its target's type,
/// which rises with what it reads and depends on nothing else.
pub fn systems_are_monotone()
    ensures { SystemsAreMonotone }
{}

/// There a tree has one solution at most.
pub fn solutions_are_one()
    ensures { SolutionsAreOne }
{}

/// Over given elements of each sort such a system meets the laws of ranks too, as far as its constraints keep to these
/// elements: values rise no more often than their heights say.
pub fn systems_are_lawful()
    ensures { SystemsAreLawful }
{}

/// Whoever made the steps, over whichever elements: where their replay satisfies each constraint, it is the tree's solution,
/// the least of all valid assignments.
pub fn replays_are_solutions()
    ensures { ReplaysAreSolutions }
{}

/// Over no more elements of any sort than the tree has, the bound of the system is at most that of the tree.
pub fn bounds_are_within()
    ensures { BoundsAreWithin }
{}

/// The paths of a tree, by which its elements are listed, are those that lead to its positions.
#[tactic(auto, using(crate::proofs::Paths::paths_positions))]
pub fn paths_are_positions()
    ensures { PathsArePositions }
{}

/// Each variable of a constraint's rule is bound to an element of the tree, of its sort.
pub fn bindings_are_elements()
    ensures { BindingsAreElements }
{}

/// Elements that stand once each, all among others, are no more than these: a bound over them is within that over the others.
#[tactic(auto, using(crate::proofs::Members::included_no_more))]
pub fn included_are_no_more()
    ensures { IncludedAreNoMore }
{}

/// The constraints of a tree keep to its elements: where each unknown has a value that is made of them, each constraint gives
/// one, for an accepted specification.
pub fn constraints_keep_to_elements()
    ensures { ConstraintsKeepToElements }
{}

/// There the system of a tree meets all laws of `constraint_theory`: of order on the values that are made of its elements,
/// and of ranks.
pub fn trees_are_lawful()
    ensures { TreesAreLawful }
{}
