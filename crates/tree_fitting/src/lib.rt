//! Which trees fit the signature of a specification, and which position of one that doesn't is the least that misfits: definitions, and
//! the laws that hold of them alone. Each function states a law as its contract and does nothing.
#![tactic(auto)]

ghost use Rattle.tree_fitting.specs.Laws.{FittingTreeHasNoMisfit, LeastMisfitIsUnique, MisfitsGoByChildren, ReplacementMisfitsInNewPart, TreeFitsOrMisfits};

/// Two least misfits of a tree are the same path.
pub fn least_misfit_is_unique()
    ensures { LeastMisfitIsUnique }
{}

/// A tree that fits has no least misfit.
pub fn fitting_tree_has_no_misfit()
    ensures { FittingTreeHasNoMisfit }
{}

/// A tree that doesn't fit has a least misfit: each tree has either.
pub fn tree_fits_or_misfits()
    ensures { TreeFitsOrMisfits }
{}

/// Misfits by recursion: a term misfits itself exactly where its own form doesn't fit. Where it does, and only there, the misfits below
/// it are those of its children, of which the parts of its sort are expected.
pub fn misfits_go_by_children()
    ensures { MisfitsGoByChildren }
{}

/// Once a part of a tree that fits is replaced, the misfits of the tree are exactly those of the new part, behind the path at which it
/// stands. Where the path is no position nothing misfits.
pub fn replacement_misfits_in_new_part()
    ensures { ReplacementMisfitsInNewPart }
{}
