//! Patterns: applications that aren't as constructors are declared, and patterns that look too deep.
ghost use Rattle.std.specs.Prelude.{◌≡◌, ◌≤◌};
ghost use Rattle.std.specs.List.{list_any};
ghost use Rattle.check_base.specs.Earliest.{Gathers, SomeHas};
ghost use Rattle.flow_syntax.specs.RuleFaults.{looks_deep};
ghost use Rattle.check_rules.specs.Faults.{IsFaultyPattern, IsMisappliedWithin, IsMisappliedIn, MisappliedAs, IsTooDeep};
ghost use Rattle.check_base.specs.Tables.{AreNames};

use check_base::{Earliest, Names};
use flow_syntax::{Pattern, PatternKind, Spec, SpecFaultKind};
use flow_term::Text;

/// How many levels below its root a pattern may look.
const LIMIT: u8 = 8;

/// Notes an application in a pattern, if it hasn't the form of a declared constructor.
fn note_application(
    names: &Names<'_>,
    name: &Text,
    count: usize,
    place: u64,
    earliest: &mut Earliest,
)
    ensures { Gathers earliest.old earliest.new (MisappliedAs names.now name.now count place) }
{
    if names.constructor_named(name, count).is_some() {
        return;
    }
    let kind = if names.is_constructor(name) {
        SpecFaultKind::Arity
    } else {
        SpecFaultKind::Unknown
    };
    earliest.note(place, kind);
}

/// Notes each application in a pattern that hasn't the form of a declared constructor.
#[cycle(applications)]
fn note_applications(names: &Names<'_>, pattern: &Pattern, earliest: &mut Earliest)
    ensures { Gathers earliest.old earliest.new (IsMisappliedWithin names.now pattern.now) }
{
    match &pattern.kind {
        PatternKind::Apply(name, parts) => {
            note_application(names, name, parts.len(), pattern.place, earliest);
            note_applications_of_each(names, parts.as_slice(), earliest);
        }
        PatternKind::Tuple(parts) | PatternKind::Items(parts) => {
            note_applications_of_each(names, parts.as_slice(), earliest);
        }
        PatternKind::Held(_, inner) => note_applications(names, inner.get(), earliest),
        _ => {}
    }
}

#[cycle(applications)]
fn note_applications_of_each(names: &Names<'_>, patterns: &[Pattern], earliest: &mut Earliest)
    ensures { Gathers earliest.old earliest.new (SomeHas (λ k. IsMisappliedWithin names.now) patterns.now) }
{
    for pattern in patterns {
        note_applications(names, pattern, earliest);
    }
}

/// With a signature, notes each application in a pattern that hasn't the form of a declared constructor.
fn check_applications(spec: &Spec, names: &Names<'_>, pattern: &Pattern, earliest: &mut Earliest)
    requires { AreNames spec.now names.now }
    ensures { Gathers earliest.old earliest.new (IsMisappliedIn spec.now pattern.now) }
{
    if spec.signature.is_some() {
        note_applications(names, pattern, earliest);
    }
}

/// Whether a pattern on this level, or a part of it, looks too deep.
#[cycle(depth)]
#[tactic(auto, using(flow_syntax::proofs::PatternDepths::looks_deep_out))]
fn looks_deep(pattern: &Pattern, level: u8) -> bool
    requires { level ≤ 9 }
    ensures { result ≡ looks_deep pattern.now level }
{
    match &pattern.kind {
        PatternKind::Wild | PatternKind::Var(_) => false,
        PatternKind::NameVar(_)
        | PatternKind::StrVar(_)
        | PatternKind::IntVar(_)
        | PatternKind::IntLit(_)
        | PatternKind::StrLit(_) => level > LIMIT,
        PatternKind::Apply(_, parts) => level > LIMIT
            || any_looks_deep(parts.as_slice(), level + 1),
        PatternKind::Tuple(parts) => level > LIMIT || any_looks_deep(parts.as_slice(), level + 1),
        PatternKind::Items(parts) => level > LIMIT || any_looks_deep(parts.as_slice(), level + 1),
        PatternKind::Held(_, inner) => level > LIMIT || looks_deep(inner.get(), level),
    }
}

#[cycle(depth)]
fn any_looks_deep(patterns: &[Pattern], level: u8) -> bool
    requires { level ≤ 9 }
    ensures { result ≡ list_any (λ p. looks_deep p level) patterns.now }
{
    for pattern in patterns {
        if looks_deep(pattern, level) {
            return true;
        }
    }
    false
}

fn check_depth(pattern: &Pattern, earliest: &mut Earliest)
    ensures { Gathers earliest.old earliest.new (IsTooDeep pattern.now) }
{
    let is_deep = looks_deep(pattern, 0);
    earliest.note_if(is_deep, pattern.place, SpecFaultKind::Depth);
}

/// Looks for the faults of a whole pattern.
pub fn check_pattern(spec: &Spec, names: &Names<'_>, pattern: &Pattern, earliest: &mut Earliest)
    requires { AreNames spec.now names.now }
    ensures { Gathers earliest.old earliest.new (IsFaultyPattern spec.now pattern.now) }
{
    check_applications(spec, names, pattern, earliest);
    check_depth(pattern, earliest);
}
