//! What holds of accepted specifications.
//!
//! Each function states a law as its contract and does nothing; a caller's proof has the law by calling it.
ghost use Rattle.flow_eval.specs.Laws.{BodiesOfReadyRise, ReadyIsAnalysed, SpecificationsHaveOneAnswer};

/// A specification without faults is accepted, or refused for one cause, and never both.
pub fn specifications_have_one_answer()
    ensures { SpecificationsHaveOneAnswer }
{}

/// A prepared specification is accepted; it has types, its tables are lawful, and its rules rise.
pub fn ready_is_analysed()
    ensures { ReadyIsAnalysed }
{}

/// In a prepared specification the body of each rule gives a value of its property's lattice wherever the rule can be applied, and
/// rises with what it reads.
pub fn bodies_of_ready_rise()
    ensures { BodiesOfReadyRise }
{}
