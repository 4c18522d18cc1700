//! What each specification has that the grammar reads, whatever its names and types say: the form that the check of its sorts
//! and everything behind it rely on.
#![tactic(auto)]

ghost use Rattle.spec_wellformed.specs.Laws.{TextsAreWellFormed};

/// A specification that is the text of tokens whose places rise is well formed: its rules have heads that are applications and
/// chains of two items at least, its functions have one or two arguments, each map that is written out has as many values as
/// keys, and no two of its expressions are equal, places included. Properties, items and elements are called by identifiers
/// where the tokens that are identifiers have the texts of identifiers, as those that a lexer gives.
pub fn texts_are_well_formed()
    ensures { TextsAreWellFormed }
{}
