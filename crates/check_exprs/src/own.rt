//! The faults that an expression has of its own.
ghost use Rattle.std.specs.Prelude.{◌≡◌, ◌↔◌, IsTrue};
ghost use Rattle.check_base.specs.Earliest.{Gathers};
ghost use Rattle.flow_syntax.specs.declared.expr.ExprKind.{out-ExprKind};
ghost use Rattle.flow_syntax.specs.Types.{typing_of};
ghost use Rattle.flow_syntax.specs.Inferred.{is_well_named};
ghost use Rattle.flow_syntax.specs.Expected.{IsOther, IsOutside, IsMismatch};
ghost use Rattle.flow_syntax.specs.Occurrences.{occurrence};
ghost use Rattle.flow_syntax.specs.ExprFaults.{own_inferred};
ghost use Rattle.check_base.specs.Tables.{AreNames};
ghost use Rattle.check_exprs.specs.inner.Own.{OwnFaults, is_undeclared, is_miscounted, is_unbound};
ghost use Rattle.check_exprs.specs.inner.Scoping.{scope_of};
ghost use Rattle.expr_typing.specs.Views.{shape_of, inferred_of, expected_of};

use crate::form::form_shape;
use crate::names::{Context, function_named, is_bound, property_named};
use crate::scope::{Scope, can_read};
use check_base::Earliest;
use expr_typing::{Expected, Inferred, Shape, is_in, is_same_type};
use flow_syntax::{Expr, ExprKind, ExprType, SpecFaultKind};

/// Whether what is inferred of an expression of a form with types of this group is another type than the expected one. A form with types of a smaller
/// group is inferred from its parts, of which the expected type is expected too: they have that fault, and not the whole.
fn is_other(form: Shape, expected_type: &ExprType, inferred: &Inferred) -> bool
    ensures { IsTrue result ↔ IsOther (shape_of form) (typing_of expected_type.now) (inferred_of inferred.now) }
{
    match (form, inferred) {
        (Shape::Anything, Inferred::Is(typing)) => !is_same_type(typing, expected_type),
        _ => false,
    }
}

fn is_outside(shape: Shape, inferred: &Inferred) -> bool
    ensures { IsTrue result ↔ IsOutside (shape_of shape) (inferred_of inferred.now) }
{
    match inferred {
        Inferred::Is(typing) => !is_in(shape, typing),
        _ => false,
    }
}

/// Whether an expression of a form with types of this group, of which this is inferred, hasn't the type that is expected.
fn is_mismatch(expected: &Expected, form: Shape, inferred: &Inferred) -> bool
    ensures { IsTrue result ↔ IsMismatch (expected_of expected.now) (shape_of form) (inferred_of inferred.now) }
{
    match expected {
        Expected::Known(typing) => is_other(form, typing, inferred) || !is_in(form, typing),
        Expected::InferredIn(shape) => is_outside(*shape, inferred)
            || matches!(inferred, Inferred::NotInferable),
        Expected::OwnChoice(shape) => is_outside(*shape, inferred),
        Expected::IfInferredIn(shape) => is_outside(*shape, inferred),
    }
}

fn is_undeclared(cx: &Context<'_>, kind: &ExprKind) -> bool
    requires { AreNames cx.now.spec.now cx.now.names.now }
    ensures { result ≡ is_undeclared cx.now.spec.now (out-ExprKind kind.now) }
{
    match kind {
        ExprKind::Read(name, _) => property_named(cx, name).is_none(),
        ExprKind::Call(name, _) => function_named(cx, name).is_none(),
        _ => false,
    }
}

fn is_miscounted(cx: &Context<'_>, kind: &ExprKind) -> bool
    requires { AreNames cx.now.spec.now cx.now.names.now }
    ensures { result ≡ is_miscounted cx.now.spec.now (out-ExprKind kind.now) }
{
    match kind {
        ExprKind::Call(name, arguments) => match function_named(cx, name) {
            Some(function) => function.args.len() != arguments.len(),
            None => false,
        },
        _ => false,
    }
}

fn is_unbound(cx: &Context<'_>, scope: &Scope<'_>, kind: &ExprKind) -> bool
    requires { AreNames cx.now.spec.now cx.now.names.now }
    ensures { result ≡ is_unbound cx.now.spec.now (scope_of scope.now) (out-ExprKind kind.now) }
{
    match kind {
        ExprKind::Ident(name) => !is_bound(cx, scope, name),
        ExprKind::Read(_, side) => !can_read(scope, *side),
        _ => false,
    }
}

/// Whether the name and the word of a read or call are without a fault.
pub fn is_well_named(cx: &Context<'_>, scope: &Scope<'_>, kind: &ExprKind) -> bool
    requires { AreNames cx.now.spec.now cx.now.names.now }
    ensures { result ≡ is_well_named cx.now.spec.now (scope_of scope.now) (out-ExprKind kind.now) }
{
    match kind {
        ExprKind::Read(_, side) => can_read(scope, *side),
        ExprKind::Call(name, arguments) => match function_named(cx, name) {
            Some(function) => function.args.len() == arguments.len(),
            None => true,
        },
        _ => true,
    }
}

/// Notes the faults that an expression has of its own, where its form gives this.
pub fn note_own(
    cx: &Context<'_>,
    scope: &Scope<'_>,
    expected: &Expected,
    expr: &Expr,
    inferred: &Inferred,
    earliest: &mut Earliest,
)
    requires names { AreNames cx.now.spec.now cx.now.names.now }
    requires infers { inferred_of inferred.now ≡ own_inferred cx.now.spec.now (occurrence (scope_of scope.now) (expected_of expected.now) expr.now) }
    ensures { Gathers earliest.old earliest.new (OwnFaults cx.now.spec.now (occurrence (scope_of scope.now) (expected_of expected.now) expr.now)) }
{
    let is_mismatch = is_mismatch(expected, form_shape(&expr.kind), inferred);
    earliest.note_if(is_mismatch, expr.place, SpecFaultKind::Sort);
    let is_undeclared = is_undeclared(cx, &expr.kind);
    earliest.note_if(is_undeclared, expr.place, SpecFaultKind::Unknown);
    let is_miscounted = is_miscounted(cx, &expr.kind);
    earliest.note_if(is_miscounted, expr.place, SpecFaultKind::Arity);
    let is_unbound = is_unbound(cx, scope, &expr.kind);
    earliest.note_if(is_unbound, expr.place, SpecFaultKind::Unbound);
}
