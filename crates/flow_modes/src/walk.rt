//! The walk over an expression beside the types of its parts.
ghost use Rattle.std.specs.Prelude.{◌≡◌, drop};
ghost use Rattle.flow_modes.specs.inner.Walked.{AllWalked, IfWalked, IsChoose, IsMapOf, IsMember, IsWalked, begins_with_must};

use crate::table::{choose_mode, combined, member_mode, needs, one_mode, three_mode, two_mode};
use flow_syntax::{Expr, ExprKind, ExprType, LatticeType, Mode};
use flow_term::Boxed;

/// Whether the first of the types is one of must sets.
fn begins_with_must(types: &[ExprType]) -> bool
    ensures { result ≡ begins_with_must types.now }
{
    match types.first() {
        Some(ExprType::Lattice(lattice)) => matches!(lattice, LatticeType::Must(_)),
        _ => false,
    }
}

/// The types behind the first.
fn behind_first(types: &[ExprType]) -> &[ExprType]
    ensures { result.now ≡ drop 1 types.now }
{
    match types.split_first() {
        Some((_, rest)) => rest,
        None => types,
    }
}

/// The mode of an expression, and the types behind those of its parts. The types begin with its own; those of its parts follow, an outer
/// one before its own parts.
#[cycle(walk)]
pub(crate) fn walked<'a>(e: &Expr, types: &'a [ExprType]) -> (Mode, &'a [ExprType])
    ensures { IsWalked e.now types.now result.0 result.1.now }
{
    let kind = &e.kind;
    let rest = behind_first(types);
    match kind {
        ExprKind::Int(_) | ExprKind::Str(_) | ExprKind::Truth(_) | ExprKind::Bottom => {
            (Mode::Fixed, rest)
        }
        ExprKind::Top | ExprKind::Unreached | ExprKind::Ident(_) => (Mode::Fixed, rest),
        ExprKind::Read(_, _) => (Mode::Up, rest),
        ExprKind::Call(_, arguments) => all_walked(arguments.as_slice(), rest),
        ExprKind::SetOf(elements) => {
            let (mode, rest) = all_walked(elements.as_slice(), rest);
            (needs(mode, Mode::Fixed), rest)
        }
        ExprKind::MapOf(_, _) => map_walked(e, types),
        ExprKind::Choose(_, _, _, _) => choice_walked(e, types),
        ExprKind::Member(_, _) => member_walked(e, types),
        ExprKind::MakeFlat(a)
        | ExprKind::Fst(a)
        | ExprKind::Snd(a)
        | ExprKind::Minus(a)
        | ExprKind::Not(a) => {
            let (mode, rest) = walked(a.get(), rest);
            (one_mode(kind, mode), rest)
        }
        ExprKind::Both(a, b)
        | ExprKind::Look(a, b)
        | ExprKind::Set2(_, a, b)
        | ExprKind::Arith(_, a, b)
        | ExprKind::Compare(_, a, b)
        | ExprKind::And(a, b)
        | ExprKind::Or(a, b)
        | ExprKind::Bind(_, a, b) => {
            let (first, rest) = walked(a.get(), rest);
            let (second, rest) = walked(b.get(), rest);
            (two_mode(kind, begins_with_must(types), first, second), rest)
        }
        ExprKind::Update(a, b, c) | ExprKind::If(a, b, c) => {
            let (first, rest) = walked(a.get(), rest);
            let (second, rest) = walked(b.get(), rest);
            let (third, rest) = walked(c.get(), rest);
            (three_mode(kind, first, second, third), rest)
        }
    }
}

/// The mode of a map of keys and values, and the types behind.
#[cycle(walk)]
fn map_walked<'a>(e: &Expr, types: &'a [ExprType]) -> (Mode, &'a [ExprType])
    requires { IsMapOf e.now }
    ensures { IsWalked e.now types.now result.0 result.1.now }
{
    let ExprKind::MapOf(keys, values) = &e.kind else {
        unreachable!()
    };
    let (first, rest) = all_walked(keys.as_slice(), behind_first(types));
    let (second, rest) = all_walked(values.as_slice(), rest);
    (needs(first, second), rest)
}

/// The mode of the membership of an element in a set, and the types behind.
#[cycle(walk)]
fn member_walked<'a>(e: &Expr, types: &'a [ExprType]) -> (Mode, &'a [ExprType])
    requires { IsMember e.now }
    ensures { IsWalked e.now types.now result.0 result.1.now }
{
    let ExprKind::Member(element, set) = &e.kind else {
        unreachable!()
    };
    let (first, rest) = walked(element.get(), behind_first(types));
    let (second, behind) = walked(set.get(), rest);
    (member_mode(begins_with_must(rest), first, second), behind)
}

/// The mode of a set that is chosen from another one, and the types behind.
#[cycle(walk)]
fn choice_walked<'a>(e: &Expr, types: &'a [ExprType]) -> (Mode, &'a [ExprType])
    requires { IsChoose e.now }
    ensures { IsWalked e.now types.now result.0 result.1.now }
{
    let ExprKind::Choose(element, _, set, condition) = &e.kind else {
        unreachable!()
    };
    let (first, rest) = walked(element.get(), behind_first(types));
    let (second, rest) = walked(set.get(), rest);
    let (third, rest) = condition_walked(condition, rest);
    (
        choose_mode(begins_with_must(types), first, second, third),
        rest,
    )
}

/// The mode of a condition, if there is one, and the types behind.
#[cycle(walk)]
fn condition_walked<'a>(
    condition: &Option<Boxed<Expr>>,
    types: &'a [ExprType],
) -> (Mode, &'a [ExprType])
    ensures { IfWalked condition.now types.now result.0 result.1.now }
{
    match condition {
        None => (Mode::Fixed, types),
        Some(condition) => walked(condition.get(), types),
    }
}

/// The combination of the modes of expressions, and the types behind those of their parts.
#[cycle(walk)]
fn all_walked<'a>(es: &[Expr], types: &'a [ExprType]) -> (Mode, &'a [ExprType])
    ensures { AllWalked es.now types.now result.0 result.1.now }
{
    let mut all = Mode::Fixed;
    let mut rest = types;
    for e in es {
        let (mode, behind) = walked(e, rest);
        all = combined(all, mode);
        rest = behind;
    }
    (all, rest)
}
