//! The steps of each rule, made once for all positions.
ghost use Rattle.std.specs.Prelude.{◌≡◌, [], IfOk, OnOk, Some, length, true};
ghost use Rattle.flow_syntax.specs.Control.{HasSmallHead, argument, arguments_in};
ghost use Rattle.flow_syntax.specs.Matching.{pattern_layer};
ghost use Rattle.flow_links.specs.inner.Gains.{Gains};
ghost use Rattle.graph_shape.specs.RuleSteps.{arriving_stop, leaving_stop};
ghost use Rattle.graph_shape.specs.Shapes.{ArePlans, IsPlan};
ghost use Rattle.graph_shape.specs.inner.Planned.{AreRulePlans, ChainSteps, IsItemStep, IsPassing, PairSteps};

use crate::plans::Plans;
use flow_links::argument_number;
use flow_syntax::{Chain, FlowRule, Item, ItemKind, Pattern, PatternKind};
use flow_term::{List, Text};
use rule_plans::{Step, Stop};
use std::alloc::{AllocError, Global};

fn argument_count(head: &Pattern) -> usize
    ensures { result ≡ length (arguments_in (pattern_layer head.now)) }
{
    match &head.kind {
        PatternKind::Apply(_, parts) => parts.len(),
        _ => 0,
    }
}

impl Plans {
    /// The steps of the control rules, in their order, and those of a position that no rule matches. A rule whose head has 2^32 arguments or more
    /// matches no term of fewer than 2^32 parts, and has no steps. Fails only for want of memory.
    pub fn new(alloc: Global, control: &[FlowRule]) -> Result<Plans, AllocError>
        ensures { IfOk result (λ plans. ArePlans control.now plans) }
    {
        let rules = rule_plans(alloc, control)?;
        let unmatched = passing(alloc)?;
        Ok(Plans { rules, unmatched })
    }
}

fn rule_plans(alloc: Global, rules: &[FlowRule]) -> Result<List<List<Step>>, AllocError>
    ensures { IfOk result (λ plans. AreRulePlans rules.now plans) }
{
    let mut plans = List::new(alloc);
    for rule in rules {
        plans.push(plan(alloc, rule)?)?;
    }
    Ok(plans)
}

/// The one step through a position.
fn passing(alloc: Global) -> Result<List<Step>, AllocError>
    ensures { IfOk result (λ steps. Gains [] steps IsPassing) }
{
    let mut steps = List::new(alloc);
    add_passing(&mut steps)?;
    Ok(steps)
}

fn add_passing(out: &mut List<Step>) -> Result<(), AllocError>
    ensures { OnOk result (Gains out.old out.new IsPassing) }
{
    out.push(Step {
        from: Stop::Entry,
        to: Stop::Exit,
    })
}

/// The steps of a rule at an entered position.
fn plan(alloc: Global, rule: &FlowRule) -> Result<List<Step>, AllocError>
    ensures { IfOk result (λ steps. HasSmallHead rule.now → IsPlan (Some rule.now) steps) }
{
    if argument_count(&rule.head) >= 1 << 32 {
        return Ok(List::new(alloc));
    }
    rule_steps(alloc, rule)
}

/// The steps of a rule's chains, and through the position if it is a root rule.
fn rule_steps(alloc: Global, rule: &FlowRule) -> Result<List<Step>, AllocError>
    requires { HasSmallHead rule.now }
    ensures { IfOk result (λ steps. IsPlan (Some rule.now) steps) }
{
    let mut steps = List::new(alloc);
    add_chains(rule, rule.chains.as_slice(), &mut steps)?;
    add_through(rule.root, &mut steps)?;
    Ok(steps)
}

fn add_through(root: bool, out: &mut List<Step>) -> Result<(), AllocError>
    ensures { OnOk result (Gains out.old out.new (λ step. (root ≡ true) × IsPassing step)) }
{
    if root {
        add_passing(out)?;
    }
    Ok(())
}

fn add_chains(rule: &FlowRule, chains: &[Chain], out: &mut List<Step>) -> Result<(), AllocError>
    requires { HasSmallHead rule.now }
    ensures { OnOk result (Gains out.old out.new (ChainSteps rule.now chains.now)) }
{
    for chain in chains {
        add_chain(rule, chain.items.as_slice(), out)?;
    }
    Ok(())
}

fn add_chain(rule: &FlowRule, items: &[Item], out: &mut List<Step>) -> Result<(), AllocError>
    requires { HasSmallHead rule.now }
    ensures { OnOk result (Gains out.old out.new (PairSteps rule.now items.now (length items.now))) }
{
    for k in 1..items.len() {
        add_pair(rule, &items[k - 1].kind, &items[k].kind, out)?;
    }
    Ok(())
}

fn add_pair(
    rule: &FlowRule,
    left: &ItemKind,
    right: &ItemKind,
    out: &mut List<Step>,
) -> Result<(), AllocError>
    requires { HasSmallHead rule.now }
    ensures { OnOk result (Gains out.old out.new (IsItemStep rule.now left.now right.now)) }
{
    let Some(from) = leaving(rule, left) else {
        return Ok(());
    };
    let Some(to) = arriving(rule, right) else {
        return Ok(());
    };
    out.push(Step { from, to })
}

/// The number of the argument that the rule's head calls by the name.
fn called(rule: &FlowRule, name: &Text) -> Option<u32>
    requires { HasSmallHead rule.now }
    ensures { result ≡ argument rule.now name.now }
{
    match argument_number(rule, name) {
        None => None,
        Some(n) => Some(n as u32),
    }
}

/// The stop of an item on the left of an arrow.
fn leaving(rule: &FlowRule, kind: &ItemKind) -> Option<Stop>
    requires { HasSmallHead rule.now }
    ensures { result ≡ leaving_stop rule.now kind.now }
{
    match kind {
        ItemKind::Entry => Some(Stop::Entry),
        ItemKind::Exit => Some(Stop::Exit),
        ItemKind::Start => Some(Stop::Start),
        ItemKind::End => Some(Stop::End),
        ItemKind::This => Some(Stop::This),
        ItemKind::Whole(name) => match called(rule, name) {
            None => None,
            Some(k) => Some(Stop::ChildExit(k)),
        },
        ItemKind::Single(name) => match called(rule, name) {
            None => None,
            Some(k) => Some(Stop::Child(k)),
        },
    }
}

/// The stop of an item on the right of an arrow.
fn arriving(rule: &FlowRule, kind: &ItemKind) -> Option<Stop>
    requires { HasSmallHead rule.now }
    ensures { result ≡ arriving_stop rule.now kind.now }
{
    match kind {
        ItemKind::Whole(name) => match called(rule, name) {
            None => None,
            Some(k) => Some(Stop::ChildEntry(k)),
        },
        ItemKind::Entry => Some(Stop::Entry),
        ItemKind::Exit => Some(Stop::Exit),
        ItemKind::Start => Some(Stop::Start),
        ItemKind::End => Some(Stop::End),
        ItemKind::This => Some(Stop::This),
        ItemKind::Single(name) => match called(rule, name) {
            None => None,
            Some(k) => Some(Stop::Child(k)),
        },
    }
}
