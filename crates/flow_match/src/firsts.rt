//! The first rules of a specification that match, found by trying one after another.
ghost use Rattle.std.specs.Prelude.{◌≡◌, ◌<◌, ◌^◌, IfOk, IfSome, find, length};
ghost use Rattle.std.specs.List.{position_from};
ghost use Rattle.std.specs.Option.{option_copied};
ghost use Rattle.flow_term.specs.Trees.{term_size};
ghost use Rattle.flow_syntax.specs.Matching.{matches};
ghost use Rattle.flow_syntax.specs.declared.spec.Spec.{Spec as Specification};
ghost use Rattle.flow_match.specs.Few.{HasFewRules};
ghost use Rattle.flow_match.specs.Matched.{first_hit};

use crate::hits::{hit_of, is_hit};
use crate::matched::RuleHit;
use crate::matching::is_match;
use flow_syntax::{FlowRule, PropRule, Spec};
use flow_term::{Term, Text};
use std::alloc::{AllocError, Global};

/// What finds the first rules of a specification that match.
pub(crate) trait Firsts {
    // The specification.
    ghost meant: { Self → Specification };

    /// The number of the first control rule whose head matches the term.
    fn control_number(&self, term: &Term) -> Option<u32>
        requires { HasFewRules (meant self.now) }
        ensures { result ≡ position_from (λ rule. matches rule.head term.now) 0 (meant self.now).control };

    /// The first ordinary rule of a property that matches, or its first boundary rule that does.
    fn first_hit(
        &self,
        alloc: Global,
        property: u32,
        name: &Text,
        boundary: bool,
        term: &Term,
        path: &[u32],
    ) -> Result<Option<RuleHit>, AllocError>
        requires small { term_size term.now < 2 ^ 32 }
        requires few { HasFewRules (meant self.now) }
        ensures { IfOk result (λ hit. hit ≡ first_hit property name.now boundary term.now path.now (meant self.now).rules) };
}

impl Firsts for Spec {
    ghost meant = { λ spec. spec };

    fn control_number(&self, term: &Term) -> Option<u32> {
        match rule_place(self.control.as_slice(), term) {
            Some(n) => Some(n as u32),
            None => None,
        }
    }

    fn first_hit(
        &self,
        alloc: Global,
        property: u32,
        name: &Text,
        boundary: bool,
        term: &Term,
        path: &[u32],
    ) -> Result<Option<RuleHit>, AllocError> {
        hit_in(
            alloc,
            property,
            name,
            boundary,
            self.rules.as_slice(),
            term,
            path,
        )
    }
}

/// The first rule whose head matches the term.
pub(crate) fn first_rule<'a>(rules: &'a [FlowRule], term: &Term) -> Option<&'a FlowRule>
    ensures { option_copied result ≡ find (λ rule. matches rule.head term.now) rules.now }
{
    rules.iter().find(|rule| is_match(&rule.head, term))
}

/// The number of the first rule whose head matches the term.
fn rule_place(rules: &[FlowRule], term: &Term) -> Option<usize>
    ensures value { result ≡ position_from (λ rule. matches rule.head term.now) 0 rules.now }
    ensures within { IfSome result (λ n. n < length rules.now) }
{
    rules.iter().position(|rule| is_match(&rule.head, term))
}

/// The first of the rules that is one of the property and matches.
fn hit_in(
    alloc: Global,
    property: u32,
    name: &Text,
    boundary: bool,
    rules: &[PropRule],
    term: &Term,
    path: &[u32],
) -> Result<Option<RuleHit>, AllocError>
    requires small { term_size term.now < 2 ^ 32 }
    requires few { length rules.now < 2 ^ 32 }
    ensures { IfOk result (λ hit. hit ≡ first_hit property name.now boundary term.now path.now rules.now) }
{
    for (n, rule) in rules.iter().enumerate() {
        if is_hit(name, boundary, rule, term) {
            return hit_of(alloc, property, boundary, n as u32, rule, term, path);
        }
    }
    Ok(None)
}
