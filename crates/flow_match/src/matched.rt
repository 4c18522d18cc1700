//! What matches at a position.
ghost use Rattle.std.specs.Prelude.{◌↔◌, IsTrue};
ghost use Rattle.flow_match.specs.Few.{HasFewRules};

use flow_syntax::Spec;
use flow_term::{Bindings, List};

/// The rules that match at a position.
#[derive(Drop)]
pub struct Matched {
    /// The number of the matching control rule, which is the first whose head matches; the first rule of the text has the number 0.
    pub control: Option<u32>,
    /// Of each property, in their order, the first ordinary rule that matches, and then the first boundary rule that matches.
    pub hits: List<RuleHit>,
}

/// A rule of a property that matches.
#[derive(Drop)]
pub struct RuleHit {
    /// The number of the property, among the declared ones in the order of the text, from 0 on.
    pub property: u32,
    /// The number of the rule, among the rules of all properties in the order of the text, from 0 on.
    pub rule: u32,
    /// Whether it is a rule for start or end nodes.
    pub boundary: bool,
    /// What the variables of its pattern stand for.
    pub bindings: Bindings,
}

/// Whether rules and properties have numbers below 2^32, as those of what matches are to have.
pub fn has_few_rules(spec: &Spec) -> bool
    ensures { IsTrue result ↔ HasFewRules spec.now }
{
    let control = spec.control.len() < 1 << 32;
    let properties = spec.properties.len() < 1 << 32;
    let rules = spec.rules.len() < 1 << 32;
    control && properties && rules
}
