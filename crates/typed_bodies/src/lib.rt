//! What the types of an accepted specification say of the meaning of its expressions.
//!
//! Each function states a law as its contract and does nothing. A caller's proof has the law by calling it.
#![tactic(auto)]

ghost use Rattle.typed_bodies.specs.Bodies.{BodiesAreTyped, ConditionsAreTyped};
ghost use Rattle.typed_bodies.specs.Accepted.{BodiesAreGood, ConditionsAreGood, MatchesBind, TypesAgree};
ghost use Rattle.typed_bodies.specs.Anywhere.{ExpressionsAreGood, ExpressionsMakeNoOthers, ExpressionsStand};

/// In a specification without faults each body of a rule is typed, where each expression has the range of its type.
#[tactic(auto, using(crate::proofs::Bodies::bodies_typed))]
pub fn bodies_are_typed()
    ensures { BodiesAreTyped }
{}

/// In a specification without faults each condition of a message is typed.
#[tactic(auto, using(crate::proofs::Bodies::conditions_typed))]
pub fn conditions_are_typed()
    ensures { ConditionsAreTyped }
{}

/// In an accepted specification with lawful tables the body of each rule gives a value of its property's lattice, wherever
/// the rule can be applied, and follows what it reads by its mode.
pub fn bodies_are_good()
    ensures { BodiesAreGood }
{}

/// The condition of each message gives a truth, wherever the message can be reported, and follows what it reads by its mode.
pub fn conditions_are_good()
    ensures { ConditionsAreGood }
{}

/// The variables that a match binds are bound by their names to elements of their sorts, and no other name is.
#[tactic(auto, using(crate::proofs::Good::matches_bind))]
pub fn matches_bind_variables()
    ensures { MatchesBind }
{}

/// Each expression of an accepted specification with lawful tables, wherever it stands, gives a meaning in the range of its type where its
/// variables are bound and the sides that it names can be read, and follows what it reads by its mode.
pub fn expressions_are_good()
    ensures { ExpressionsAreGood }
{}

/// Each expression of an accepted specification stands at a place.
pub fn expressions_stand()
    ensures { ExpressionsStand }
{}

/// What an expression of an accepted specification means holds no elements but those that bindings and reads hold, texts of the
/// specification, items of enums, and integers.
pub fn expressions_make_no_others()
    ensures { ExpressionsMakeNoOthers }
{}

/// The list of types of an accepted specification gives each of its expressions its range.
pub fn types_agree()
    ensures { TypesAgree }
{}
