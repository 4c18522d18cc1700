//! The forms of expressions: which types they can have, and what is expected of their parts in the order in which they are checked.
ghost use Rattle.std.specs.Prelude.{◌≡◌, IfOk};
ghost use Rattle.flow_syntax.specs.declared.expr.ExprKind.{out-ExprKind};
ghost use Rattle.flow_syntax.specs.Occurrences.{form_shape, compared_left, compared_right};
ghost use Rattle.flow_syntax.specs.Inferred.{is, operands};
ghost use Rattle.flow_syntax.specs.Types.{element, int_sort, truth};
ghost use Rattle.check_base.specs.Tables.{AreNames};
ghost use Rattle.check_exprs.specs.inner.Scoping.{scope_of};
ghost use Rattle.expr_typing.specs.Views.{shape_of, sort_in, inferred_of, expected_of};
ghost use Rattle.check_exprs.specs.inner.Plans.{expected_first_part, leaf_inferred, expected_second_part, expected_third_part, infer_made, infer_one, infer_two};

use crate::names::{Context, name_inferred, property_inferred};
use crate::scope::Scope;
use expr_typing::{
    Expected, Inferred, Shape, always_inferred, expected_element, expected_first, expected_flat,
    expected_left, expected_map, expected_right, expected_same, expected_second, expected_source,
    expected_updated_key, expected_updated_value, first_of, int, key_sort, known_sort, only,
    pair_inferred, same_type_as, second_of, set_sort, truth, unconstrained, value_of,
};
use flow_syntax::{CompareOp, ElemSort, ExprKind, ExprType, SetOp};
use std::alloc::{AllocError, Global};

/// The types that an operation of two lattice values is for.
pub fn operands(op: SetOp) -> Shape
    ensures { shape_of result ≡ operands op }
{
    match op {
        SetOp::Join => Shape::AnyLattice,
        SetOp::Union => Shape::AnySet,
        SetOp::Inter => Shape::AnySet,
        SetOp::Minus => Shape::AnySet,
    }
}

/// The types that a form of expressions can have, where its type isn't inferred.
pub fn form_shape(kind: &ExprKind) -> Shape
    ensures { shape_of result ≡ form_shape (out-ExprKind kind.now) }
{
    match kind {
        ExprKind::Bottom => Shape::AnyLattice,
        ExprKind::Top | ExprKind::MakeFlat(_) | ExprKind::Bind(_, _, _) => Shape::AnyFlat,
        ExprKind::Unreached => Shape::AnyMust,
        ExprKind::Both(_, _) => Shape::AnyPair,
        ExprKind::SetOf(_) | ExprKind::Choose(_, _, _, _) => Shape::AnySet,
        ExprKind::MapOf(_, _) | ExprKind::Update(_, _, _) => Shape::AnyMap,
        ExprKind::Set2(op, _, _) => operands(*op),
        _ => Shape::Anything,
    }
}

/// Of the left operand of a comparison.
fn compared_left(op: CompareOp) -> Expected
    ensures { expected_of result ≡ compared_left op }
{
    match op {
        CompareOp::Eq | CompareOp::Ne => Expected::InferredIn(Shape::AnyElement),
        CompareOp::Lt | CompareOp::Le => int(),
    }
}

/// Of the right operand of a comparison.
fn compared_right(alloc: Global, op: CompareOp, left: &Inferred) -> Result<Expected, AllocError>
    ensures { IfOk result (λ w. expected_of w ≡ compared_right op (inferred_of left.now)) }
{
    match op {
        CompareOp::Eq | CompareOp::Ne => same_type_as(alloc, Shape::AnyElement, left),
        CompareOp::Lt | CompareOp::Le => Ok(int()),
    }
}

/// What is expected of the part that is checked first.
pub fn expected_first_part(
    alloc: Global,
    kind: &ExprKind,
    expected: &Expected,
) -> Result<Expected, AllocError>
    ensures { IfOk result (λ w. expected_of w ≡ expected_first_part (expected_of expected.now) (out-ExprKind kind.now)) }
{
    match kind {
        ExprKind::MakeFlat(_) => expected_flat(alloc, expected),
        ExprKind::Fst(_) | ExprKind::Snd(_) => Ok(Expected::InferredIn(Shape::AnyPair)),
        ExprKind::Both(_, _) => expected_first(alloc, expected),
        ExprKind::Choose(_, _, _, _) => Ok(expected_source(expected)),
        ExprKind::Look(_, _) => Ok(Expected::InferredIn(Shape::AnyMap)),
        ExprKind::Update(_, _, _) => expected_map(alloc, expected),
        ExprKind::Set2(op, _, _) => expected_left(alloc, operands(*op), expected),
        ExprKind::Arith(_, _, _) | ExprKind::Minus(_) => Ok(int()),
        ExprKind::Compare(op, _, _) => Ok(compared_left(*op)),
        ExprKind::Member(_, _) => Ok(Expected::InferredIn(Shape::AnySet)),
        ExprKind::Bind(_, _, _) => Ok(Expected::InferredIn(Shape::AnyFlat)),
        ExprKind::And(_, _) | ExprKind::Or(_, _) => Ok(truth()),
        ExprKind::Not(_) | ExprKind::If(_, _, _) => Ok(truth()),
        _ => Ok(unconstrained()),
    }
}

/// What is expected of the part that is checked second, where this is inferred of the first.
pub fn expected_second_part(
    alloc: Global,
    kind: &ExprKind,
    expected: &Expected,
    inferred: &Inferred,
) -> Result<Expected, AllocError>
    ensures { IfOk result (λ w. expected_of w ≡ expected_second_part (expected_of expected.now) (inferred_of inferred.now) (out-ExprKind kind.now)) }
{
    match kind {
        ExprKind::Both(_, _) => expected_second(alloc, expected),
        ExprKind::Choose(_, _, _, _) => expected_element(alloc, expected),
        ExprKind::Look(_, _) => known_sort(alloc, key_sort(inferred)),
        ExprKind::Update(_, _, _) => expected_updated_key(alloc, expected, inferred),
        ExprKind::Set2(op, _, _) => expected_right(alloc, operands(*op), expected, inferred),
        ExprKind::Arith(_, _, _) => Ok(int()),
        ExprKind::Compare(op, _, _) => compared_right(alloc, *op, inferred),
        ExprKind::Member(_, _) => known_sort(alloc, set_sort(inferred)),
        ExprKind::And(_, _) | ExprKind::Or(_, _) => Ok(truth()),
        ExprKind::Bind(_, _, _) => expected_same(alloc, Shape::AnyFlat, expected),
        ExprKind::If(_, _, _) => expected_same(alloc, Shape::Anything, expected),
        _ => Ok(unconstrained()),
    }
}

/// What is expected of the part that is checked third, where this is inferred of the first.
pub fn expected_third_part(
    alloc: Global,
    kind: &ExprKind,
    expected: &Expected,
    inferred: &Inferred,
) -> Result<Expected, AllocError>
    ensures { IfOk result (λ w. expected_of w ≡ expected_third_part (expected_of expected.now) (inferred_of inferred.now) (out-ExprKind kind.now)) }
{
    match kind {
        ExprKind::Choose(_, _, _, _) => Ok(truth()),
        ExprKind::Update(_, _, _) => expected_updated_value(alloc, expected, inferred),
        ExprKind::If(_, _, _) => expected_same(alloc, Shape::Anything, expected),
        _ => Ok(unconstrained()),
    }
}

fn inferred_int() -> Inferred
    ensures { inferred_of result ≡ is (element int_sort) }
{
    Inferred::Is(ExprType::Elem(ElemSort::Int))
}

fn inferred_truth() -> Inferred
    ensures { inferred_of result ≡ is truth }
{
    Inferred::Is(ExprType::Truth)
}

/// What a form without parts gives.
pub fn infer_leaf(
    cx: &Context<'_>,
    scope: &Scope<'_>,
    kind: &ExprKind,
) -> Result<Inferred, AllocError>
    requires { AreNames cx.now.spec.now cx.now.names.now }
    ensures { IfOk result (λ t. inferred_of t ≡ leaf_inferred cx.now.spec.now (scope_of scope.now) (out-ExprKind kind.now)) }
{
    match kind {
        ExprKind::Int(_) => Ok(inferred_int()),
        ExprKind::Str(_) => Ok(Inferred::Is(ExprType::Elem(ElemSort::Str))),
        ExprKind::Truth(_) => Ok(inferred_truth()),
        ExprKind::Ident(name) => name_inferred(cx, scope, name),
        ExprKind::Read(name, _) => property_inferred(cx, name),
        _ => Ok(Inferred::NotInferable),
    }
}

/// What a form of one part gives, where this is inferred of the part.
pub fn infer_one(
    alloc: Global,
    kind: &ExprKind,
    inferred: &Inferred,
) -> Result<Inferred, AllocError>
    ensures { IfOk result (λ t. inferred_of t ≡ infer_one (inferred_of inferred.now) (out-ExprKind kind.now)) }
{
    match kind {
        ExprKind::Fst(_) => first_of(alloc, inferred),
        ExprKind::Snd(_) => second_of(alloc, inferred),
        ExprKind::Minus(_) => Ok(inferred_int()),
        ExprKind::Not(_) => Ok(inferred_truth()),
        _ => Ok(Inferred::NotInferable),
    }
}

/// What a form of two or three parts gives that doesn't have the type of the part checked first.
fn infer_made(
    alloc: Global,
    kind: &ExprKind,
    first: &Inferred,
    second: &Inferred,
) -> Result<Inferred, AllocError>
    ensures { IfOk result (λ t. inferred_of t ≡ infer_made (inferred_of first.now) (inferred_of second.now) (out-ExprKind kind.now)) }
{
    match kind {
        ExprKind::Both(_, _) => pair_inferred(alloc, first, second),
        ExprKind::Look(_, _) => value_of(alloc, first),
        ExprKind::Arith(_, _, _) => Ok(inferred_int()),
        ExprKind::Compare(_, _, _) | ExprKind::Member(_, _) => Ok(inferred_truth()),
        ExprKind::And(_, _) | ExprKind::Or(_, _) => Ok(inferred_truth()),
        _ => Ok(Inferred::NotInferable),
    }
}

/// What a form of two or three parts gives, where this is inferred of those that are checked first and second.
pub fn infer_two(
    alloc: Global,
    kind: &ExprKind,
    first: Inferred,
    second: &Inferred,
) -> Result<Inferred, AllocError>
    ensures { IfOk result (λ t. inferred_of t ≡ infer_two (inferred_of first) (inferred_of second.now) (out-ExprKind kind.now)) }
{
    match kind {
        ExprKind::Update(_, _, _) => Ok(always_inferred(only(Shape::AnyMap, first))),
        ExprKind::Set2(op, _, _) => Ok(only(operands(*op), first)),
        _ => infer_made(alloc, kind, &first, second),
    }
}
