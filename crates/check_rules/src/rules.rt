//! All control rules and patterns of a specification.
ghost use Rattle.std.specs.Prelude.{◌≡◌, OnOk};
ghost use Rattle.check_base.specs.Earliest.{Gathers, SomeHas};
ghost use Rattle.flow_syntax.specs.ExprFaults.{trigger_pattern};
ghost use Rattle.flow_syntax.specs.RuleFaults.{IsFaultyRule};
ghost use Rattle.check_rules.specs.Faults.{HasFaultyItem, HasFaultyMessage, HasFaultyTrigger, IsFaultyControl};
ghost use Rattle.check_base.specs.Tables.{AreNames};

use crate::head::head_of;
use crate::items::check_chains;
use crate::mixed::check_mixed;
use crate::patterns::check_pattern;
use check_base::{Earliest, Names};
use flow_syntax::{FlowRule, Message, Pattern, PropRule, Spec, Trigger};
use std::alloc::{AllocError, Global};

/// The pattern of a rule of a property.
pub fn trigger_pattern(trigger: &Trigger) -> &Pattern
    ensures { result.now ≡ trigger_pattern trigger.now }
{
    match trigger {
        Trigger::Forward(pattern)
        | Trigger::Backward(pattern)
        | Trigger::AtStart(pattern)
        | Trigger::AtEnd(pattern) => pattern,
    }
}

/// Looks for the faults of the chains of a control rule.
fn check_rule_items(
    alloc: Global,
    rule: &FlowRule,
    earliest: &mut Earliest,
) -> Result<(), AllocError>
    ensures { OnOk result (Gathers earliest.old earliest.new (HasFaultyItem rule.now)) }
{
    let head = head_of(alloc, rule)?;
    check_chains(rule, &head, rule.chains.as_slice(), earliest);
    check_mixed(alloc, rule, &head, earliest)
}

fn check_control(
    alloc: Global,
    spec: &Spec,
    names: &Names<'_>,
    rules: &[FlowRule],
    earliest: &mut Earliest,
) -> Result<(), AllocError>
    requires { AreNames spec.now names.now }
    ensures { OnOk result (Gathers earliest.old earliest.new (SomeHas (λ k. IsFaultyControl spec.now) rules.now)) }
{
    for rule in rules {
        check_pattern(spec, names, &rule.head, earliest);
        check_rule_items(alloc, rule, earliest)?;
    }
    Ok(())
}

fn check_triggers(spec: &Spec, names: &Names<'_>, rules: &[PropRule], earliest: &mut Earliest)
    requires { AreNames spec.now names.now }
    ensures { Gathers earliest.old earliest.new (SomeHas (λ k. HasFaultyTrigger spec.now) rules.now) }
{
    for rule in rules {
        check_pattern(spec, names, trigger_pattern(&rule.trigger), earliest);
    }
}

fn check_messages(spec: &Spec, names: &Names<'_>, messages: &[Message], earliest: &mut Earliest)
    requires { AreNames spec.now names.now }
    ensures { Gathers earliest.old earliest.new (SomeHas (λ k. HasFaultyMessage spec.now) messages.now) }
{
    for message in messages {
        check_pattern(spec, names, &message.pattern, earliest);
    }
}

/// Looks for the faults of control rules and of all patterns. Fails only for want of memory.
///
/// A pattern's applications are to be as the signature declares them, if there is one, and it isn't to look more than 8 levels
/// deep. An item of a chain is to name a position that the head directly binds, in one way in the whole rule; `entry` and `start`
/// are to stand first in a chain, `exit` and `end` last, `entry` and `exit` in plain rules, `start` and `end` in root rules.
pub fn check_rules(
    alloc: Global,
    spec: &Spec,
    names: &Names<'_>,
    earliest: &mut Earliest,
) -> Result<(), AllocError>
    requires { AreNames spec.now names.now }
    ensures { OnOk result (Gathers earliest.old earliest.new (IsFaultyRule spec.now)) }
{
    check_control(alloc, spec, names, spec.control.as_slice(), earliest)?;
    check_triggers(spec, names, spec.rules.as_slice(), earliest);
    check_messages(spec, names, spec.messages.as_slice(), earliest);
    Ok(())
}
