//! What visits lead to.
ghost use Rattle.constraint_theory.specs.Systems.{ConstraintSystem, Equality, IsEquality};
ghost use Rattle.session_theory.specs.Laws.{AreSystems, SettledIsLeast, SettlesInTheEnd, SettlesOrSpends, SpentIsBelowBound, VisitsKeepMomentsSound};

/// Trees with constraints.
pub trait Analysis {
    /// Trees.
    type Tree;

    /// Names of constraints.
    type Key;

    /// What values are looked for of.
    type Unknown;

    /// Values.
    type Value;

    // How keys and unknowns are told apart.
    ghost same: { Equality Self.Key Self.Unknown };

    // These are the constraints of the tree.
    ghost IsSystemOf: { Self.Tree → ConstraintSystem Self.Key Self.Unknown Self.Value → Type 0 };

    ghost tells: { IsEquality same };

    ghost systems: { AreSystems same IsSystemOf };
}

/// Visits keep a moment sound.
pub fn visits_keep_moments_sound<A: Analysis>()
    ensures { VisitsKeepMomentsSound A.same A.IsSystemOf }
{}

/// From a sound moment some visits lead to one in which nothing waits.
pub fn settles_in_the_end<A: Analysis>()
    ensures { SettlesInTheEnd A.same A.IsSystemOf }
{}

/// Within a limit nothing waits in the end, or exactly so many visits were made and something waits.
pub fn settles_or_spends<A: Analysis>()
    ensures { SettlesOrSpends A.same A.IsSystemOf }
{}

/// A limit that is spent is below the bound of the tree.
pub fn spent_is_below_bound<A: Analysis>()
    ensures { SpentIsBelowBound A.same A.IsSystemOf }
{}

/// Where nothing waits, the values are the least solution of the present tree, whatever led there.
pub fn settled_is_least<A: Analysis>()
    ensures { SettledIsLeast A.same A.IsSystemOf }
{}
