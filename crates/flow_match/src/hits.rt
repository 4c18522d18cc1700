//! The rules of properties that match, with what their variables stand for.
ghost use Rattle.std.specs.Prelude.{◌≡◌, ◌≢◌, ◌<◌, ◌^◌, ◌++◌, ◌&&◌, IfOk, OnOk, None, Some, length, option_map};
ghost use Rattle.flow_term.specs.Trees.{At, term_size};
ghost use Rattle.flow_syntax.specs.Matching.{matches};
ghost use Rattle.flow_match.specs.Bindings.{bindings_at};
ghost use Rattle.flow_match.specs.Few.{HasFewRules};
ghost use Rattle.flow_syntax.specs.ExprFaults.{trigger_pattern};
ghost use Rattle.flow_match.specs.Matched.{as_list, hit_of, hits_from, hits_of, is_boundary, is_rule_of, matched, matched_in};

use crate::bind::bindings_of;
use crate::firsts::Firsts;
use crate::matched::{Matched, RuleHit};
use crate::matching::is_match;
use flow_syntax::{Pattern, PropDecl, PropRule, Trigger};
use flow_term::{List, Path, Term, Text, term_at};
use std::alloc::{AllocError, Global};

/// The pattern of a rule.
pub(crate) fn trigger_pattern(trigger: &Trigger) -> &Pattern
    ensures { result.now ≡ trigger_pattern trigger.now }
{
    match trigger {
        Trigger::Forward(pattern) => pattern,
        Trigger::Backward(pattern) => pattern,
        Trigger::AtStart(pattern) => pattern,
        Trigger::AtEnd(pattern) => pattern,
    }
}

/// Whether it is a rule for start or end nodes.
fn is_boundary(trigger: &Trigger) -> bool
    ensures { result ≡ is_boundary trigger.now }
{
    match trigger {
        Trigger::AtStart(_) => true,
        Trigger::AtEnd(_) => true,
        Trigger::Forward(_) => false,
        Trigger::Backward(_) => false,
    }
}

/// Whether a rule is an ordinary rule, or a boundary rule, of the property.
fn is_rule_of(name: &Text, boundary: bool, rule: &PropRule) -> bool
    ensures { result ≡ is_rule_of name.now boundary rule.now }
{
    *name == rule.property.text && is_boundary(&rule.trigger) == boundary
}

/// Whether a rule is one of the property and matches the term.
pub(crate) fn is_hit(name: &Text, boundary: bool, rule: &PropRule, term: &Term) -> bool
    ensures { result ≡ (is_rule_of name.now boundary rule.now && matches (trigger_pattern rule.now.trigger) term.now) }
{
    is_rule_of(name, boundary, rule) && is_match(trigger_pattern(&rule.trigger), term)
}

/// What a rule gives that is one of the property, where it matches.
pub(crate) fn hit_of(
    alloc: Global,
    property: u32,
    boundary: bool,
    number: u32,
    rule: &PropRule,
    term: &Term,
    path: &[u32],
) -> Result<Option<RuleHit>, AllocError>
    requires { term_size term.now < 2 ^ 32 }
    ensures { IfOk result (λ hit. hit ≡ option_map (hit_of property boundary number) (bindings_at (trigger_pattern rule.now.trigger) term.now path.now)) }
{
    match bindings_of(alloc, trigger_pattern(&rule.trigger), term, path)? {
        Some(bindings) => Ok(Some(RuleHit {
            property,
            rule: number,
            boundary,
            bindings,
        })),
        None => Ok(None),
    }
}

/// Adds a rule that matches, if there is one.
fn add(hit: Option<RuleHit>, hits: &mut List<RuleHit>) -> Result<(), AllocError>
    ensures { OnOk result (hits.new ≡ hits.old ++ as_list hit) }
{
    match hit {
        Some(hit) => hits.push(hit),
        None => Ok(()),
    }
}

/// Adds the first ordinary rule of a property that matches, and its first boundary rule that does.
fn add_hits<F: Firsts>(
    alloc: Global,
    rules: &F,
    number: u32,
    property: &PropDecl,
    term: &Term,
    path: &[u32],
    hits: &mut List<RuleHit>,
) -> Result<(), AllocError>
    requires small { term_size term.now < 2 ^ 32 }
    requires few { HasFewRules (F.meant rules.now) }
    ensures { OnOk result (hits.new ≡ hits.old ++ hits_of (F.meant rules.now).rules term.now path.now number property.now) }
{
    let name = &property.name.text;
    add(
        rules.first_hit(alloc, number, name, false, term, path)?,
        hits,
    )?;
    add(
        rules.first_hit(alloc, number, name, true, term, path)?,
        hits,
    )
}

/// The rules of these properties that match.
fn hits_of<F: Firsts>(
    alloc: Global,
    rules: &F,
    properties: &[PropDecl],
    term: &Term,
    path: &[u32],
) -> Result<List<RuleHit>, AllocError>
    requires small { term_size term.now < 2 ^ 32 }
    requires properties { length properties.now < 2 ^ 32 }
    requires few { HasFewRules (F.meant rules.now) }
    ensures { IfOk result (λ hits. hits ≡ hits_from (F.meant rules.now).rules term.now path.now 0 properties.now) }
{
    let mut hits = List::new(alloc);
    for (n, property) in properties.iter().enumerate() {
        add_hits(alloc, rules, n as u32, property, term, path, &mut hits)?;
    }
    Ok(hits)
}

/// What matches at a term that stands at a path.
fn matched_by<F: Firsts>(
    alloc: Global,
    rules: &F,
    properties: &[PropDecl],
    term: &Term,
    path: &[u32],
) -> Result<Matched, AllocError>
    requires small { term_size term.now < 2 ^ 32 }
    requires few { HasFewRules (F.meant rules.now) }
    requires properties { properties.now ≡ (F.meant rules.now).properties }
    ensures { IfOk result (λ found. found ≡ matched (F.meant rules.now) term.now path.now) }
{
    let control = rules.control_number(term);
    let hits = hits_of(alloc, rules, properties, term, path)?;
    Ok(Matched { control, hits })
}

/// What matches at a position of a tree.
pub(crate) fn matched_at<F: Firsts>(
    alloc: Global,
    rules: &F,
    properties: &[PropDecl],
    tree: &Term,
    path: &Path,
) -> Result<Matched, AllocError>
    requires small { term_size tree.now < 2 ^ 32 }
    requires position { At tree.now path.now ≢ None }
    requires few { HasFewRules (F.meant rules.now) }
    requires properties { properties.now ≡ (F.meant rules.now).properties }
    ensures { IfOk result (λ found. Some found ≡ matched_in (F.meant rules.now) tree.now path.now) }
{
    match term_at(tree, path) {
        Some(term) => matched_by(alloc, rules, properties, term, path.as_slice()),
        None => Ok(Matched {
            control: None,
            hits: List::new(alloc),
        }),
    }
}
