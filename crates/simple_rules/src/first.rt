//! What the analysis doesn't take yet: lattices with tables and their functions, and bodies other than simple ones.
ghost use Rattle.std.specs.Prelude.{◌≡◌, ◌↔◌, ℕ, Ok, Err};
ghost use Rattle.simple_rules.specs.inner.Least.{IsAtFunction, IsAtLattice, IsAtOther, IsAtOtherBody, IsLeast, SomeHas, lesser_of};
ghost use Rattle.simple_rules.specs.Simple.{IsFirstNotYet, IsNotYet};

use crate::form::{Form, form_of};
use crate::refusal::NotYet;
use flow_syntax::{Expr, FunctionDecl, PropRule, Spec, TableDecl, TypedSpec};

/// Whether the analysis takes the specification. It takes no memory.
///
/// `NotYet` comes exactly where one of these stands, with the least place of one: the name of a lattice or of a function; the
/// body of a property's rule that isn't simple. A body is simple where it holds no read, is a read, is `a join b` or
/// `a union b` of simple ones, or is `a minus b` with a simple `a` and a `b` that holds no read.
///
/// It takes time in proportion to the size of the specification: a body is walked once.
pub fn only_simple(spec: &TypedSpec) -> Result<(), NotYet>
    ensures accepted { (result ≡ Ok tt) ↔ ((place : ℕ) → ¬ IsNotYet spec.now.spec place) }
    ensures refused { (place : ℕ) → (result ≡ Err (record { place = place })) ↔ IsFirstNotYet spec.now.spec place }
{
    match first_not_yet(&spec.spec) {
        None => Ok(()),
        Some(place) => Err(NotYet { place }),
    }
}

/// The least place of something that isn't taken yet.
pub fn first_not_yet(spec: &Spec) -> Option<u64>
    ensures { IsLeast (IsNotYet spec.now) result }
{
    let declared = lesser(
        first_lattice(spec.lattices.as_slice()),
        first_function(spec.functions.as_slice()),
    );
    lesser(declared, first_body(spec.rules.as_slice()))
}

/// The lesser one, or the one that is there.
fn lesser(a: Option<u64>, b: Option<u64>) -> Option<u64>
    ensures { result ≡ lesser_of a b }
{
    match (a, b) {
        (None, _) => b,
        (_, None) => a,
        (Some(m), Some(n)) => Some(m.min(n)),
    }
}

#[tactic(auto, using(crate::proofs::LeastLemmas::least_start, crate::proofs::LeastLemmas::least_next, crate::proofs::LeastLemmas::least_all))]
fn first_lattice(lattices: &[TableDecl]) -> Option<u64>
    ensures { IsLeast (SomeHas IsAtLattice lattices.now) result }
{
    let mut first = None;
    for lattice in lattices {
        first = lesser(first, Some(lattice.name.place));
    }
    first
}

#[tactic(auto, using(crate::proofs::LeastLemmas::least_start, crate::proofs::LeastLemmas::least_next, crate::proofs::LeastLemmas::least_all))]
fn first_function(functions: &[FunctionDecl]) -> Option<u64>
    ensures { IsLeast (SomeHas IsAtFunction functions.now) result }
{
    let mut first = None;
    for function in functions {
        first = lesser(first, Some(function.name.place));
    }
    first
}

#[tactic(auto, using(crate::proofs::LeastLemmas::least_start, crate::proofs::LeastLemmas::least_next, crate::proofs::LeastLemmas::least_all))]
fn first_body(rules: &[PropRule]) -> Option<u64>
    ensures { IsLeast (SomeHas IsAtOtherBody rules.now) result }
{
    let mut first = None;
    for rule in rules {
        first = lesser(first, other_place(&rule.body));
    }
    first
}

/// The place of an expression that isn't simple.
fn other_place(body: &Expr) -> Option<u64>
    ensures { IsLeast (IsAtOther body.now) result }
{
    match form_of(body) {
        Form::Fixed | Form::Rising => None,
        Form::Other => Some(body.place),
    }
}
