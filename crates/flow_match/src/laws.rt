//! What holds of the variables of patterns. Each function does nothing; calling it gives its law to the caller's proof.
ghost use Rattle.flow_match.specs.Laws.{BindsItsVariables, BindsWhereItMatches};

use flow_syntax::Pattern;

/// A pattern binds exactly where it matches.
pub fn patterns_bind_where_they_match(_pattern: &Pattern)
    ensures { BindsWhereItMatches _pattern.now }
{}

/// A pattern binds exactly its own variables, in the order of the text, each to an element of its sort.
pub fn patterns_bind_their_variables(_pattern: &Pattern)
    ensures { BindsItsVariables _pattern.now }
{}
