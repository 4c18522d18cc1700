//! Edits that take away and add constraints and unknowns, and rename values.
ghost use Rattle.std.specs.Prelude.{◌∷◌, [], Bool, false, true, not};
ghost use Rattle.constraint_theory.specs.Systems.{IsLawful, numbers};
ghost use Rattle.constraint_theory.specs.Edits.{IsEdit, IsTainted};
ghost use Rattle.solver_examples.specs.Moves.{moving, turn, turned_taint};

/// The system meets the laws of systems, whichever way it is turned, and each turn meets those of edits. Where each key
/// was a step, the first taints the unknowns 2, 3 and 4.
pub fn turning_is_an_edit()
    ensures lawful { (turned : Bool) → IsLawful numbers (moving turned) }
    ensures edit { (turned : Bool) → IsEdit numbers (moving turned) (moving (not turned)) (turn turned) }
    ensures taints { IsTainted numbers (moving false) (moving true) (turn false) (0 ∷ 1 ∷ 2 ∷ 3 ∷ 4 ∷ 5 ∷ []) turned_taint }
{}
