//! What the control rules say of a term: which one matches it, and which of its children are entered.
ghost use Rattle.std.specs.Prelude.{◌≡◌, ◌<◌, ◌≤◌, ◌==◌, ℕ, false, length, IfOk, IfSome};
ghost use Rattle.std.specs.List.{list_any, position_from};
ghost use Rattle.std.specs.Option.{option_copied, option_map_or};
ghost use Rattle.flow_term.specs.Trees.{children};
ghost use Rattle.flow_syntax.specs.Matching.{pattern_layer};
ghost use Rattle.flow_syntax.specs.Control.{argument, arguments_in, enters_argument, enters_child, is_variable_in, rule_for};
ghost use Rattle.flow_links.specs.inner.Marks.{AreMarks, Marks, entered_by};

use flow_match::{RuleIndex, RuleSource};
use flow_syntax::{Chain, FlowRule, Item, ItemKind, Pattern, PatternKind};
use flow_term::{Kind, Term, Text};
use lattice_base::Steps;
use std::alloc::{AllocError, Global};
use std::marker::Brand;
use std::sync::ledger::{Blank, Ledger};

/// The matching rule of a term: the first whose head matches. Its step is counted by a counter of its own.
pub fn matching_rule<'a>(rules: &'a RuleIndex<'_>, term: &Term) -> Option<&'a FlowRule>
    ensures { option_copied result ≡ rule_for rules.now.spec.now.spec term.now }
{
    counted_rule::<Brand>(rules, term, Blank::new(1))
}

fn counted_rule<'a, C: Ledger>(
    rules: &'a RuleIndex<'_>,
    term: &Term,
    blank: Blank,
) -> Option<&'a FlowRule>
    requires name { blank.name ≡ C.name }
    requires parts { blank.parts ≡ C.parts }
    requires some { 0 < C.parts }
    ensures { option_copied result ≡ rule_for rules.now.spec.now.spec term.now }
{
    let mut steps: Steps<C> = Steps::new(blank);
    rules.control_rule(term, &mut steps)
}

fn is_variable(name: &Text, pattern: &Pattern) -> bool
    ensures { result ≡ is_variable_in name.now (pattern_layer pattern.now) }
{
    match &pattern.kind {
        PatternKind::Var(other) => *name == *other,
        PatternKind::Held(other, _) => *name == *other,
        _ => false,
    }
}

fn position_of(name: &Text, patterns: &[Pattern]) -> Option<usize>
    ensures value { result ≡ position_from (λ p. is_variable_in name.now (pattern_layer p)) 0 patterns.now }
    ensures within { IfSome result (λ n. n < length patterns.now) }
{
    patterns
        .iter()
        .position(|pattern| is_variable(name, pattern))
}

/// The number of the argument that the rule's head calls by the name.
pub fn argument_number(rule: &FlowRule, name: &Text) -> Option<usize>
    ensures value { result ≡ argument rule.now name.now }
    ensures within { IfSome result (λ n. n < length (arguments_in (pattern_layer rule.now.head))) }
{
    match &rule.head.kind {
        PatternKind::Apply(_, parts) => position_of(name, parts.as_slice()),
        _ => None,
    }
}

/// The number of the argument that an item enters.
fn entered_argument(rule: &FlowRule, kind: &ItemKind) -> Option<usize>
    ensures { (n : ℕ) → enters_argument rule.now n kind.now ≡ option_map_or (λ k. k == n) result false }
{
    match kind {
        ItemKind::Whole(name) => argument_number(rule, name),
        _ => None,
    }
}

/// Marks this number, if it has a mark.
fn mark(marks: &mut Vec<bool>, n: usize)
    ensures { Marks marks.old.items marks.new.items (λ k. n == k) }
{
    if n < marks.len() {
        marks[n] = true;
    }
}

/// Marks the argument that an item enters.
fn mark_item(rule: &FlowRule, kind: &ItemKind, marks: &mut Vec<bool>)
    ensures { Marks marks.old.items marks.new.items (λ n. enters_argument rule.now n kind.now) }
{
    if let Some(n) = entered_argument(rule, kind) {
        mark(marks, n);
    }
}

/// Marks the arguments that the items of a chain enter.
fn mark_items(rule: &FlowRule, items: &[Item], marks: &mut Vec<bool>)
    ensures { Marks marks.old.items marks.new.items (λ n. list_any (λ it. enters_argument rule.now n it.kind) items.now) }
{
    for item in items {
        mark_item(rule, &item.kind, marks);
    }
}

/// Marks the arguments that the chains of a rule enter.
fn mark_chains(rule: &FlowRule, chains: &[Chain], marks: &mut Vec<bool>)
    ensures { Marks marks.old.items marks.new.items (λ n. list_any (λ chain. list_any (λ it. enters_argument rule.now n it.kind) chain.items) chains.now) }
{
    for chain in chains {
        mark_items(rule, chain.items.as_slice(), marks);
    }
}

/// Marks the arguments that a rule enters, if the position counts by it.
fn mark_rule(matching: Option<&FlowRule>, entered: bool, marks: &mut Vec<bool>)
    ensures { Marks marks.old.items marks.new.items (entered_by (option_copied matching.entry) entered) }
{
    if let Some(rule) = matching {
        if rule.root || entered {
            mark_chains(rule, rule.chains.as_slice(), marks);
        }
    }
}

/// For each child whether it is entered, where `matching` is the matching rule of the parent.
pub fn entered_children(
    alloc: Global,
    matching: Option<&FlowRule>,
    entered: bool,
    term: &Term,
) -> Result<Vec<bool>, AllocError>
    ensures { IfOk result (λ marks. AreMarks marks.items (length (children term.now)) (enters_child (option_copied matching.entry) entered term.now)) }
{
    let count = term.children().len();
    if entered && matches!(&term.kind, Kind::Items(_)) {
        return Vec::from_elem(alloc, true, count);
    }
    let mut marks = Vec::from_elem(alloc, false, count)?;
    mark_rule(matching, entered, &mut marks);
    Ok(marks)
}
