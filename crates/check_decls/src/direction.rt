//! The directions of properties and rules.
ghost use Rattle.std.specs.Prelude.{◌≡◌, ◌≢◌, ◌↔◌, slice_get, IsTrue, IfOk};
ghost use Rattle.std.specs.Option.{option_copied};
ghost use Rattle.flow_syntax.specs.DeclFaults.{IsTurned, direction_of, directions_of, first_rule, trigger_direction};
ghost use Rattle.check_base.specs.Tables.{AreNames};

use check_base::Names;
use flow_syntax::{Direction, PropDecl, PropRule, Spec, Trigger};
use flow_term::{List, Text};
use std::alloc::{AllocError, Global};

fn trigger_direction(trigger: &Trigger) -> Direction
    ensures { result ≡ trigger_direction trigger.now }
{
    match trigger {
        Trigger::Forward(_) => Direction::Forward,
        Trigger::AtStart(_) => Direction::Forward,
        Trigger::Backward(_) => Direction::Backward,
        Trigger::AtEnd(_) => Direction::Backward,
    }
}

fn rule_at(rules: &[PropRule], number: usize) -> Option<&PropRule>
    ensures { option_copied result ≡ slice_get rules.now number }
{
    rules.get(number)
}

/// The first rule of a property.
fn first_rule<'a>(spec: &'a Spec, names: &Names<'_>, property: &Text) -> Option<&'a PropRule>
    requires { AreNames spec.now names.now }
    ensures { option_copied result ≡ first_rule spec.now property.now }
{
    let number = names.first_rule_of(property)?;
    rule_at(spec.rules.as_slice(), number)
}

fn is_other(a: Direction, b: Direction) -> bool
    ensures { IsTrue result ↔ (a ≢ b) }
{
    match a {
        Direction::Forward => matches!(b, Direction::Backward),
        Direction::Backward => matches!(b, Direction::Forward),
    }
}

/// Whether a rule has another direction than the first rule of its property.
pub fn is_turned(spec: &Spec, names: &Names<'_>, rule: &PropRule) -> bool
    requires { AreNames spec.now names.now }
    ensures { IsTrue result ↔ IsTurned spec.now rule.now }
{
    match first_rule(spec, names, &rule.property.text) {
        Some(first) => is_other(
            trigger_direction(&rule.trigger),
            trigger_direction(&first.trigger),
        ),
        None => false,
    }
}

fn direction(spec: &Spec, names: &Names<'_>, property: &PropDecl) -> Direction
    requires { AreNames spec.now names.now }
    ensures { result ≡ direction_of spec.now property.now }
{
    match first_rule(spec, names, &property.name.text) {
        Some(rule) => trigger_direction(&rule.trigger),
        None => Direction::Forward,
    }
}

/// The direction of each property: that of its first rule, forward where it has none. Fails only for want of memory.
pub fn directions(
    alloc: Global,
    spec: &Spec,
    names: &Names<'_>,
) -> Result<List<Direction>, AllocError>
    requires { AreNames spec.now names.now }
    ensures { IfOk result (λ directions. directions ≡ directions_of spec.now) }
{
    let mut directions = List::new(alloc);
    for property in spec.properties.as_slice() {
        directions.push(direction(spec, names, property))?;
    }
    Ok(directions)
}
