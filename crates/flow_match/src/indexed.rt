//! A source of rules that looks them up by the application at the root of their patterns.
ghost use Rattle.std.specs.Prelude.{◌≡◌, ◌<◌, ◌^◌, ◌&&◌, IfOk, IfSome, None, Some, cond, length, option_and_then, slice_get};
ghost use Rattle.std.specs.Option.{option_copied};
ghost use Rattle.flow_term.specs.Trees.{term_size};
ghost use Rattle.flow_syntax.specs.Matching.{matches};
ghost use Rattle.flow_match.specs.Index.{IsIndexOf, head_pattern, rule_pattern};
ghost use Rattle.flow_syntax.specs.ExprFaults.{trigger_pattern};
ghost use Rattle.flow_match.specs.Matched.{hit_by, is_rule_of};
ghost use Rattle.flow_match.specs.inner.Among.{first_among};

use crate::firsts::Firsts;
use crate::hits::{hit_of, is_hit, matched_at};
use crate::index::PatternIndex;
use crate::matched::{Matched, RuleHit};
use crate::matching::is_match;
use crate::source::RuleSource;
use flow_syntax::{FlowRule, PropRule, TypedSpec};
use flow_term::{Path, Term, Text};
use lattice_base::Steps;
use std::alloc::{AllocError, Global};
use std::sync::ledger::Ledger;

/// The rules of a specification by the name of the application at the root of their patterns. At a term only those rules are
/// tried whose root has the term's name or isn't an application. It is made once for a specification, and gives the same rules.
#[derive(Drop)]
pub struct RuleIndex<'a> {
    /// The specification.
    spec: &'a TypedSpec,
    /// The control rules by their heads.
    control: PatternIndex,
    /// The rules of properties by their patterns.
    rules: PatternIndex,
    ghost control_indexed: { IsIndexOf head_pattern spec.now.spec.control control },
    ghost rules_indexed: { IsIndexOf rule_pattern spec.now.spec.rules rules },
}

impl<'a> RuleIndex<'a> {
    /// The index of the rules of a specification. Fails only for want of memory.
    pub fn new(alloc: Global, spec: &'a TypedSpec) -> Result<RuleIndex<'a>, AllocError>
        ensures { IfOk result (λ index. index.spec.now ≡ spec.now) }
    {
        let control = PatternIndex::new(alloc, spec.spec.control.as_slice())?;
        let rules = PatternIndex::new(alloc, spec.spec.rules.as_slice())?;
        Ok(RuleIndex {
            spec,
            control,
            rules,
        })
    }
}

impl<'a> Firsts for RuleIndex<'a> {
    ghost meant = { λ index. index.spec.now.spec };

    fn control_number(&self, term: &Term) -> Option<u32> {
        let rules = self.spec.spec.control.as_slice();
        match place_among(rules, self.control.numbers(term), term) {
            Some(n) => Some(n as u32),
            None => None,
        }
    }

    fn first_hit(
        &self,
        alloc: Global,
        property: u32,
        name: &Text,
        boundary: bool,
        term: &Term,
        path: &[u32],
    ) -> Result<Option<RuleHit>, AllocError> {
        let rules = self.spec.spec.rules.as_slice();
        let numbers = self.rules.numbers(term);
        hit_among(alloc, property, name, boundary, rules, numbers, term, path)
    }
}

impl<'a> RuleSource for RuleIndex<'a> {
    ghost spec = { λ index. index.spec.now.spec };

    fn rules_at<C: Ledger>(
        &self,
        alloc: Global,
        tree: &Term,
        path: &Path,
        steps: &mut Steps<C>,
    ) -> Result<Matched, AllocError> {
        steps.tick();
        matched_at(
            alloc,
            self,
            self.spec.spec.properties.as_slice(),
            tree,
            path,
        )
    }

    fn control_rule<'b, C: Ledger>(
        &'b self,
        term: &Term,
        steps: &mut Steps<C>,
    ) -> Option<&'b FlowRule> {
        steps.tick();
        let rules = self.spec.spec.control.as_slice();
        rule_among(rules, self.control.numbers(term), term)
    }
}

/// The first of the rules with these numbers whose head matches the term.
fn rule_among<'a>(rules: &'a [FlowRule], numbers: &[usize], term: &Term) -> Option<&'a FlowRule>
    ensures { option_copied result ≡ first_among (λ n rule. cond (matches rule.head term.now) (Some rule) None) rules.now numbers.now }
{
    for number in numbers {
        if let Some(rule) = rule_if(rules, *number, term) {
            return Some(rule);
        }
    }
    None
}

/// The rule with this number, if its head matches the term.
fn rule_if<'a>(rules: &'a [FlowRule], number: usize, term: &Term) -> Option<&'a FlowRule>
    ensures { option_copied result ≡ option_and_then (λ rule. cond (matches rule.head term.now) (Some rule) None) (slice_get rules.now number) }
{
    let rule = rule_at(rules, number)?;
    if is_match(&rule.head, term) {
        return Some(rule);
    }
    None
}

fn rule_at<'a>(rules: &'a [FlowRule], number: usize) -> Option<&'a FlowRule>
    ensures { option_copied result ≡ slice_get rules.now number }
{
    rules.get(number)
}

/// The first of these numbers whose rule's head matches the term.
fn place_among(rules: &[FlowRule], numbers: &[usize], term: &Term) -> Option<usize>
    ensures value { result ≡ first_among (λ n rule. cond (matches rule.head term.now) (Some n) None) rules.now numbers.now }
    ensures within { IfSome result (λ n. n < length rules.now) }
{
    for number in numbers {
        if let Some(place) = place_if(rules, *number, term) {
            return Some(place);
        }
    }
    None
}

/// The number, if the head of its rule matches the term.
fn place_if(rules: &[FlowRule], number: usize, term: &Term) -> Option<usize>
    ensures value { result ≡ option_and_then (λ rule. cond (matches rule.head term.now) (Some number) None) (slice_get rules.now number) }
    ensures within { IfSome result (λ n. n < length rules.now) }
{
    if number < rules.len() && is_match(&rules[number].head, term) {
        return Some(number);
    }
    None
}

/// The rule with this number, if it is one of the property and matches the term.
fn hit_if<'a>(
    name: &Text,
    boundary: bool,
    rules: &'a [PropRule],
    number: usize,
    term: &Term,
) -> Option<&'a PropRule>
    ensures { option_copied result ≡ option_and_then (λ rule. cond (is_rule_of name.now boundary rule && matches (trigger_pattern rule.trigger) term.now) (Some rule) None) (slice_get rules.now number) }
{
    let rule = prop_rule_at(rules, number)?;
    if is_hit(name, boundary, rule, term) {
        return Some(rule);
    }
    None
}

fn prop_rule_at<'a>(rules: &'a [PropRule], number: usize) -> Option<&'a PropRule>
    ensures { option_copied result ≡ slice_get rules.now number }
{
    rules.get(number)
}

/// The first of the rules with these numbers that is one of the property and matches.
fn hit_among(
    alloc: Global,
    property: u32,
    name: &Text,
    boundary: bool,
    rules: &[PropRule],
    numbers: &[usize],
    term: &Term,
    path: &[u32],
) -> Result<Option<RuleHit>, AllocError>
    requires small { term_size term.now < 2 ^ 32 }
    requires few { length rules.now < 2 ^ 32 }
    ensures { IfOk result (λ hit. hit ≡ first_among (hit_by property name.now boundary term.now path.now) rules.now numbers.now) }
{
    for number in numbers {
        if let Some(rule) = hit_if(name, boundary, rules, *number, term) {
            return hit_of(alloc, property, boundary, *number as u32, rule, term, path);
        }
    }
    Ok(None)
}
