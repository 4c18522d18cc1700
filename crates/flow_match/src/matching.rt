//! Patterns against terms.
ghost use Rattle.std.specs.Prelude.{◌≡◌};
ghost use Rattle.flow_syntax.specs.Matching.{matches, fit_all};

use flow_syntax::{Pattern, PatternKind};
use flow_term::{Kind, Term, resolved_name};

/// Whether the pattern matches the term.
#[cycle(matching)]
#[tactic(auto, using(flow_syntax::proofs::Matches::matches_out))]
pub fn is_match(pattern: &Pattern, term: &Term) -> bool
    ensures { result ≡ matches pattern.now term.now }
{
    match &pattern.kind {
        PatternKind::Wild | PatternKind::Var(_) => true,
        PatternKind::NameVar(_) => resolved_name(term).is_some(),
        PatternKind::StrVar(_) => matches!(&term.kind, Kind::Str(_)),
        PatternKind::IntVar(_) => matches!(&term.kind, Kind::Int(_)),
        PatternKind::IntLit(number) => match &term.kind {
            Kind::Int(other) => *number == *other,
            _ => false,
        },
        PatternKind::StrLit(text) => match &term.kind {
            Kind::Str(other) => *text == *other,
            _ => false,
        },
        PatternKind::Apply(name, parts) => match &term.kind {
            Kind::Apply(other, args) => *name == *other
                && are_matches(parts.as_slice(), args.as_slice()),
            _ => false,
        },
        PatternKind::Tuple(parts) => match &term.kind {
            Kind::Tuple(items) => are_matches(parts.as_slice(), items.as_slice()),
            _ => false,
        },
        PatternKind::Items(parts) => match &term.kind {
            Kind::Items(items) => are_matches(parts.as_slice(), items.as_slice()),
            _ => false,
        },
        PatternKind::Held(_, inner) => is_match(inner.get(), term),
    }
}

#[cycle(matching)]
#[tactic(auto, using(flow_syntax::proofs::Fits::fit_next, flow_syntax::proofs::Fits::fit_end, flow_syntax::proofs::Fits::fit_short))]
fn are_matches(patterns: &[Pattern], terms: &[Term]) -> bool
    ensures { result ≡ fit_all patterns.now terms.now }
{
    if patterns.len() != terms.len() {
        return false;
    }
    for (i, pattern) in patterns.iter().enumerate() {
        if !is_match(pattern, &terms[i]) {
            return false;
        }
    }
    true
}
