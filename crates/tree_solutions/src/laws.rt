//! What the system of a tree's constraints says of the tree.
ghost use Rattle.tree_solutions.specs.Laws.{AnalysesAreOne, BroughtAreNoMore, BroughtBoundsAreWithin, BroughtSystemsAreLawful, PropertiesAreDeclared, RulesAreThere, RulesCanBeEvaluated, SettledIsAnalysis};

/// The constraints of a tree bring no more elements of any sort than the tree has.
pub fn brought_are_no_more()
    ensures { BroughtAreNoMore }
{}

/// Over these elements the bound of their system is at most that of the tree.
pub fn brought_bounds_are_within()
    ensures { BroughtBoundsAreWithin }
{}

/// Over these elements the system of some tree's constraints meets all laws of `constraint_theory`, for an accepted
/// specification. That there is such a tree is enough.
pub fn brought_systems_are_lawful()
    ensures { BroughtSystemsAreLawful }
{}

/// There the rule of each constraint can be evaluated wherever the values fit: its variables are bound, and each value that
/// it reads is one of its property's domain.
pub fn rules_can_be_evaluated()
    ensures { RulesCanBeEvaluated }
{}

/// The rule of each constraint of some tree is one of the specification's.
pub fn rules_are_there()
    ensures { RulesAreThere }
{}

/// The property of each unknown of some tree is declared.
pub fn properties_are_declared()
    ensures { PropertiesAreDeclared }
{}

/// Where a sound state by number has nothing waiting, the values that its steps lead to are the analysis of the tree.
pub fn settled_is_analysis()
    ensures { SettledIsAnalysis }
{}

/// A tree has one analysis at most.
pub fn analyses_are_one()
    ensures { AnalysesAreOne }
{}
