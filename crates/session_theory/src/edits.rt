//! What edits leave.
ghost use Rattle.session_theory.specs.Laws.{MeanTheSame, RepairsAreSound, RepairsExist, RestartsAreSound};

use crate::moments::Analysis;

/// Trees whose keys say all that enters their constraints.
pub trait Recorded: Analysis {
    ghost alike: { MeanTheSame Self.Analysis.same Self.Analysis.IsSystemOf };
}

/// An edit that begins anew leaves a sound moment.
pub fn restarts_are_sound<A: Analysis>()
    ensures { RestartsAreSound A.same A.IsSystemOf }
{}

/// An edit that repairs leaves a sound moment.
pub fn repairs_are_sound<A: Recorded>()
    ensures { RepairsAreSound A.same A.IsSystemOf }
{}

/// Where both trees have their constraints, each moment can be repaired: there is a least taint.
pub fn repairs_exist<A: Analysis>()
    ensures { RepairsExist A.same A.IsSystemOf }
{}
