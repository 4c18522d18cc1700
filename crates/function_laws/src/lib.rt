//! What declared functions are to the meaning of calls, by the numbers of the elements: a table that is monotone by numbers is a
//! monotone function, and gives elements of its lattice.
//!
//! Each function states a law as its contract and does nothing; a caller's proof has the law by calling it.
#![tactic(auto)]

ghost use Rattle.function_laws.specs.Laws.{AcceptedIsWellDeclared, GivesByNumbers, MonotoneByNumbers, MonotoneInNumbers};

/// A well declared function whose table is monotone by numbers is monotone as calls mean it.
#[tactic(auto, using(crate::proofs::Monotone::by_numbers))]
pub fn monotone_numbers_make_monotone_functions()
    ensures { MonotoneByNumbers }
{}

/// And only there, where no name stands twice among the elements of its lattices.
#[tactic(auto, using(crate::proofs::Monotone::in_numbers))]
pub fn monotone_functions_have_monotone_numbers()
    ensures { MonotoneInNumbers }
{}

/// A well declared function gives an element of its lattice for elements of those of its arguments.
#[tactic(auto, using(crate::proofs::Monotone::gives))]
pub fn well_declared_functions_give_elements()
    ensures { GivesByNumbers }
{}

/// In a specification without faults, whose functions have one or two arguments, each function is well declared, and the lattices of
/// its arguments name each element once.
pub fn accepted_functions_are_well_declared()
    ensures { AcceptedIsWellDeclared }
{}
