//! Rules by the application at the root of their patterns.
ghost use Rattle.std.specs.Prelude.{◌≡◌, ◌==◌, ◌++◌, [], ◌∷◌, IfOk, OnOk, Some, cond, unwrap_or};
ghost use Rattle.std.specs.Option.{option_copied};
ghost use Rattle.std.specs.Cmp.Lexicographic.{pointwise};
ghost use Rattle.indexmap.specs.IndexMap.{Updates, get};
ghost use Rattle.flow_match.specs.Index.{IsIndexOf, candidates, head_name, may_match, numbers_in, root_name};
ghost use Rattle.flow_syntax.specs.ExprFaults.{trigger_pattern};
ghost use Rattle.flow_match.specs.inner.Named.{AddsName, HasNames};

use crate::hits::trigger_pattern;
use flow_syntax::{FlowRule, Pattern, PatternKind, PropRule};
use flow_term::{Kind, List, Term, Text};
use indexmap::IndexMap;
use std::alloc::{AllocError, Global};

/// The numbers of rules by what the roots of their patterns ask for, in the order of the rules.
#[derive(Drop)]
pub(crate) struct PatternIndex {
    /// For the name of each application that is a root: the rules whose root is one with this name, and those with other roots.
    by_name: IndexMap<Text, List<usize>>,
    /// The rules whose root isn't an application.
    others: List<usize>,
}

impl PatternIndex {
    /// The index of these rules. Fails only for want of memory.
    pub(crate) fn new<R: Patterned>(alloc: Global, rules: &[R]) -> Result<PatternIndex, AllocError>
        ensures { IfOk result (IsIndexOf R.pattern_in rules.now) }
    {
        let others = numbers_of(alloc, None, rules)?;
        let by_name = index_names(alloc, rules)?;
        Ok(PatternIndex { by_name, others })
    }

    /// The numbers of the rules that may match a term.
    pub(crate) fn numbers(&self, term: &Term) -> &[usize]
        ensures { result.now ≡ numbers_in self.now (head_name term.now) }
    {
        match &term.kind {
            Kind::Apply(name, _) => numbers_named(&self.by_name, &self.others, name),
            _ => self.others.as_slice(),
        }
    }
}

/// What has a pattern.
pub(crate) trait Patterned {
    ghost use Rattle.flow_syntax.specs.declared.pattern.Pattern.{Pattern as Form};

    // The pattern.
    ghost pattern_in: { Self → Form };

    /// The pattern.
    fn pattern(&self) -> &Pattern
        ensures { result.now ≡ pattern_in self.now };
}

impl Patterned for FlowRule {
    ghost pattern_in = { λ rule. rule.head };

    fn pattern(&self) -> &Pattern {
        &self.head
    }
}

impl Patterned for PropRule {
    ghost pattern_in = { λ rule. trigger_pattern rule.trigger };

    fn pattern(&self) -> &Pattern {
        trigger_pattern(&self.trigger)
    }
}

/// The numbers for a name; where it has none, the others.
fn numbers_named<'a>(
    by_name: &'a IndexMap<Text, List<usize>>,
    others: &'a List<usize>,
    name: &Text,
) -> &'a [usize]
    ensures { result.now ≡ unwrap_or (get (pointwise ◌==◌) by_name.now name.now) others.now }
{
    match by_name.get(name) {
        Some(numbers) => numbers.as_slice(),
        None => others.as_slice(),
    }
}

/// The name of the application that a pattern is, which variables may hold.
#[cycle(root)]
#[tactic(auto, using(crate::proofs::Roots::root_out))]
fn root_name(pattern: &Pattern) -> Option<&Text>
    ensures { option_copied result ≡ root_name pattern.now }
{
    match &pattern.kind {
        PatternKind::Apply(name, _) => Some(name),
        PatternKind::Held(_, inner) => root_name(inner.get()),
        _ => None,
    }
}

/// Whether a pattern may match a term that is an application of this name, or no application.
fn is_candidate(head: Option<&Text>, pattern: &Pattern) -> bool
    ensures { result ≡ may_match (option_copied head.entry) (root_name pattern.now) }
{
    match root_name(pattern) {
        None => true,
        Some(name) => match head {
            Some(other) => *name == *other,
            None => false,
        },
    }
}

fn add_if(passes: bool, number: usize, numbers: &mut List<usize>) -> Result<(), AllocError>
    ensures { OnOk result (numbers.new ≡ cond passes (numbers.old ++ number ∷ []) numbers.old) }
{
    if passes {
        return numbers.push(number);
    }
    Ok(())
}

/// The numbers of the rules that may match a term that is an application of this name, or no application.
fn numbers_of<R: Patterned>(
    alloc: Global,
    head: Option<&Text>,
    rules: &[R],
) -> Result<List<usize>, AllocError>
    ensures { IfOk result (λ numbers. numbers ≡ candidates R.pattern_in rules.now (option_copied head.entry)) }
{
    let mut numbers = List::new(alloc);
    for (n, rule) in rules.iter().enumerate() {
        add_if(is_candidate(head, rule.pattern()), n, &mut numbers)?;
    }
    Ok(numbers)
}

/// Notes the rules that may match an application of this name.
fn add_name<R: Patterned>(
    alloc: Global,
    name: &Text,
    rules: &[R],
    by_name: &mut IndexMap<Text, List<usize>>,
) -> Result<(), AllocError>
    ensures { OnOk result (Updates (pointwise ◌==◌) by_name.old by_name.new name.now (Some (candidates R.pattern_in rules.now (Some name.now)))) }
{
    let numbers = numbers_of(alloc, Some(name), rules)?;
    by_name.insert(name.duplicate()?, numbers)?;
    Ok(())
}

/// Notes the rules that may match what the root of a pattern asks for, if that is an application.
fn add_root<R: Patterned>(
    alloc: Global,
    pattern: &Pattern,
    rules: &[R],
    by_name: &mut IndexMap<Text, List<usize>>,
) -> Result<(), AllocError>
    ensures { OnOk result (AddsName R.pattern_in rules.now (root_name pattern.now) by_name.old by_name.new) }
{
    match root_name(pattern) {
        Some(name) => add_name(alloc, name, rules, by_name),
        None => Ok(()),
    }
}

/// For the name of each application that is a root, the rules that may match one of this name.
fn index_names<R: Patterned>(
    alloc: Global,
    rules: &[R],
) -> Result<IndexMap<Text, List<usize>>, AllocError>
    ensures { IfOk result (HasNames R.pattern_in rules.now rules.now) }
{
    let mut by_name = IndexMap::new(alloc);
    for rule in rules {
        add_root(alloc, rule.pattern(), rules, &mut by_name)?;
    }
    Ok(by_name)
}
