//! The meaning of expressions, how it follows what is read, and which elements it makes.
//!
//! Definitions, and no code: each function states a law as its contract and does nothing. A caller's proof has the law by
//! calling it.
#![tactic(auto)]

ghost use Rattle.expr_meaning.specs.Laws.{MeaningsAreInRange, ModesAreRight, NoOthersAreMade, RangesAgree};

/// What a typed expression means is in its range, where the variables stand for elements of their sorts and each value
/// read is one of its property's domain.
#[tactic(auto, using(crate::proofs::Laws::meanings_in_range))]
pub fn meanings_are_in_range()
    ensures { MeaningsAreInRange }
{}

/// A typed expression of mode `Up` is increasing, of mode `Down` decreasing, and of mode `Fixed` fixed: where functions of tables are
/// monotone, and each table is that of a lattice.
#[tactic(auto, using(crate::proofs::Laws::modes_right))]
pub fn modes_are_right()
    ensures { ModesAreRight }
{}

/// What a typed expression means holds no elements but those that bindings and reads hold, texts of the specification, items of
/// enums, and integers: over any collection of elements that has these, and a pair exactly where it has its parts.
#[tactic(auto, using(crate::proofs::Laws::no_others_made))]
pub fn no_other_elements_are_made()
    ensures { NoOthersAreMade }
{}

/// Where no expression of a specification stands twice, each has the range of the type that is listed for it.
#[tactic(auto, using(crate::proofs::Ranges::ranges_agree))]
pub fn ranges_agree()
    ensures { RangesAgree }
{}
