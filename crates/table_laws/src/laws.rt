//! What the laws by numbers are to declared tables.
ghost use Rattle.table_laws.specs.Laws.{AcceptedIsWellDeclared, FaultlessIsLawful, LawfulByNumbers, LawfulInNumbers};

/// A table with an entry for each two elements breaks no law exactly where its joins are those of a lattice.
#[tactic(auto, using(crate::proofs::Lawful::faultless))]
pub fn faultless_tables_are_lawful()
    ensures { FaultlessIsLawful }
{}

/// Where the numbers of a declared table are those of a lattice, the table is that of a lattice over its names.
#[tactic(auto, using(crate::proofs::Lawful::by_numbers))]
pub fn lawful_numbers_make_lawful_tables()
    ensures { LawfulByNumbers }
{}

/// And only there, where no name stands twice among the elements.
#[tactic(auto, using(crate::proofs::Lawful::in_numbers))]
pub fn lawful_tables_have_lawful_numbers()
    ensures { LawfulInNumbers }
{}

/// In a specification without faults each declared lattice has at most 24 elements, each named once, and an entry for each two of
/// them; its bottom and each entry is an element.
pub fn accepted_tables_are_complete()
    ensures { AcceptedIsWellDeclared }
{}
