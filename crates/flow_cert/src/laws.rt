//! What there is at most one of.
ghost use Rattle.flow_cert.specs.Laws.{SolutionsAreOne};

/// A tree has one solution at most, by an accepted specification.
pub fn solutions_are_one()
    ensures { SolutionsAreOne }
{}
