//! The walk over an expression: notes each fault in it, lists the type of each part, and answers what is inferred of its own.
ghost use Rattle.std.specs.Prelude.{◌≡◌, ◌≤◌, ◌⊎◌, IfOk, OnOk, length, map};
ghost use Rattle.std.specs.Option.{option_copied};
ghost use Rattle.flow_syntax.specs.declared.expr.ExprKind.{out-ExprKind};
ghost use Rattle.flow_syntax.specs.Scopes.{with_variable};
ghost use Rattle.flow_syntax.specs.Inferred.{function_named, is, not_inferable};
ghost use Rattle.flow_syntax.specs.Types.{truth};
ghost use Rattle.flow_syntax.specs.Occurrences.{arguments, declared_arguments, optional, occurrence};
ghost use Rattle.check_base.specs.Tables.{AreNames};
ghost use Rattle.check_exprs.specs.inner.Checked.{HasCheckedArguments, HasCheckedParts, IsBind, IsChecked, IsChoose, IsMapOf, IsMember, IsSetOf};
ghost use Rattle.check_exprs.specs.inner.Noted.{AreNoted, IsNoted, IsNotedBefore, noted_types};
ghost use Rattle.check_exprs.specs.inner.Plans.{expected_argument, expected_first_part, outside, expected_second_part, expected_third_part};
ghost use Rattle.check_exprs.specs.inner.Scoping.{scope_of};
ghost use Rattle.expr_typing.specs.Views.{sort_in, inferred_of, expected_of};

use crate::form::{
    expected_first_part, expected_second_part, expected_third_part, infer_leaf, infer_one,
    infer_two,
};
use crate::names::{Context, function_named, result_inferred};
use crate::notes::{Notes, count, hold_place, listed_type, put_behind, set_type};
use crate::own::{is_well_named, note_own};
use crate::scope::Scope;
use crate::variables::Variable;
use expr_typing::{
    Expected, Inferred, chosen_sort, expected_element, expected_key, expected_value, flat_sort,
    unconstrained,
};
use flow_syntax::{ElemSort, Expr, ExprKind, ExprType, LatticeType, Named};
use flow_term::{Boxed, Text};
use std::alloc::{AllocError, Global};

/// What is inferred of an expression for those that need its type, where its form gives this.
fn outside(cx: &Context<'_>, scope: &Scope<'_>, kind: &ExprKind, inferred: Inferred) -> Inferred
    requires { AreNames cx.now.spec.now cx.now.names.now }
    ensures { inferred_of result ≡ outside cx.now.spec.now (scope_of scope.now) (out-ExprKind kind.now) (inferred_of inferred) }
{
    if is_well_named(cx, scope, kind) {
        inferred
    } else {
        Inferred::Faulty
    }
}

/// The lattices of the arguments of a function.
fn declared_arguments<'a>(cx: &Context<'a>, name: &Text) -> &'a [Named]
    requires { AreNames cx.now.spec.now cx.now.names.now }
    ensures { result.now ≡ declared_arguments (function_named cx.now.spec.now name.now) }
{
    match function_named(cx, name) {
        Some(function) => function.args.as_slice(),
        None => &[],
    }
}

/// What is expected of an argument, of which this lattice is declared.
fn expected_argument(declared: Option<&Named>) -> Result<Expected, AllocError>
    ensures { IfOk result (λ w. expected_of w ≡ expected_argument (option_copied declared.entry)) }
{
    match declared {
        Some(lattice) => {
            let named = lattice.duplicate()?;
            Ok(Expected::Known(ExprType::Lattice(LatticeType::Table(named))))
        }
        None => Ok(unconstrained()),
    }
}

/// The scope around, with one more variable.
fn inner_scope<'a>(scope: &'a Scope<'a>, name: &'a Text, sort: Option<&'a ElemSort>) -> Scope<'a>
    ensures { scope_of result ≡ with_variable (scope_of scope.now) name.now (sort_in sort.entry) }
{
    Scope::Inner(scope, Variable { name, sort })
}

/// Notes the faults of an expression and of its parts, lists their types, and answers what is inferred of its type.
#[cycle(check)]
fn check(
    expr: &Expr,
    cx: &Context<'_>,
    scope: &Scope<'_>,
    expected: &Expected,
    notes: &mut Notes,
) -> Result<Inferred, AllocError>
    requires { AreNames cx.now.spec.now cx.now.names.now }
    ensures { IfOk result (λ t. IsChecked cx.now.spec.now (occurrence (scope_of scope.now) (expected_of expected.now) expr.now) notes.old notes.new (inferred_of t)) }
{
    let at = hold_place(&mut notes.types)?;
    let inferred = check_parts(expr, cx, scope, expected, notes)?;
    note_own(cx, scope, expected, expr, &inferred, &mut notes.earliest);
    let inferred = outside(cx, scope, &expr.kind, inferred);
    let typing = listed_type(cx.alloc, expected, &inferred)?;
    set_type(&mut notes.types, at, typing);
    Ok(inferred)
}

/// Notes the faults of an expression and of its parts, and lists their types.
#[cycle(check)]
pub fn note(
    expr: &Expr,
    cx: &Context<'_>,
    scope: &Scope<'_>,
    expected: &Expected,
    notes: &mut Notes,
) -> Result<(), AllocError>
    requires { AreNames cx.now.spec.now cx.now.names.now }
    ensures { OnOk result (IsNoted cx.now.spec.now (occurrence (scope_of scope.now) (expected_of expected.now) expr.now) notes.old notes.new) }
{
    check(expr, cx, scope, expected, notes)?;
    Ok(())
}

/// Notes the faults of the parts of an expression, lists their types, and answers what its form gives of its type.
#[cycle(check)]
fn check_parts(
    expr: &Expr,
    cx: &Context<'_>,
    scope: &Scope<'_>,
    expected: &Expected,
    notes: &mut Notes,
) -> Result<Inferred, AllocError>
    requires { AreNames cx.now.spec.now cx.now.names.now }
    ensures { IfOk result (λ t. HasCheckedParts cx.now.spec.now (occurrence (scope_of scope.now) (expected_of expected.now) expr.now) notes.old notes.new (inferred_of t)) }
{
    let kind = &expr.kind;
    match kind {
        ExprKind::Int(_) | ExprKind::Str(_) | ExprKind::Truth(_) | ExprKind::Bottom => {
            infer_leaf(cx, scope, kind)
        }
        ExprKind::Top | ExprKind::Unreached | ExprKind::Ident(_) | ExprKind::Read(_, _) => {
            infer_leaf(cx, scope, kind)
        }
        ExprKind::Call(name, given) => check_call(name, given.as_slice(), cx, scope, notes),
        ExprKind::SetOf(_) | ExprKind::MapOf(_, _) => check_list(expr, cx, scope, expected, notes),
        ExprKind::MakeFlat(a)
        | ExprKind::Fst(a)
        | ExprKind::Snd(a)
        | ExprKind::Minus(a)
        | ExprKind::Not(a) => {
            let inferred = check_first(a.get(), cx, scope, kind, expected, notes)?;
            infer_one(cx.alloc, kind, &inferred)
        }
        ExprKind::Both(a, b)
        | ExprKind::Look(a, b)
        | ExprKind::Set2(_, a, b)
        | ExprKind::Arith(_, a, b)
        | ExprKind::Compare(_, a, b)
        | ExprKind::And(a, b)
        | ExprKind::Or(a, b) => {
            let first = check_first(a.get(), cx, scope, kind, expected, notes)?;
            let second = check_second(b.get(), cx, scope, kind, expected, &first, notes)?;
            infer_two(cx.alloc, kind, first, &second)
        }
        ExprKind::Update(a, b, c) | ExprKind::If(a, b, c) => {
            let first = check_first(a.get(), cx, scope, kind, expected, notes)?;
            let second = check_second(b.get(), cx, scope, kind, expected, &first, notes)?;
            note_third(c.get(), cx, scope, kind, expected, &first, notes)?;
            infer_two(cx.alloc, kind, first, &second)
        }
        ExprKind::Member(_, _) | ExprKind::Choose(_, _, _, _) | ExprKind::Bind(_, _, _) => {
            check_over_elements(expr, cx, scope, expected, notes)
        }
    }
}

/// Checks the part that is checked first.
#[cycle(check)]
fn check_first(
    part: &Expr,
    cx: &Context<'_>,
    scope: &Scope<'_>,
    kind: &ExprKind,
    expected: &Expected,
    notes: &mut Notes,
) -> Result<Inferred, AllocError>
    requires { AreNames cx.now.spec.now cx.now.names.now }
    ensures { IfOk result (λ t. IsChecked cx.now.spec.now (occurrence (scope_of scope.now) (expected_first_part (expected_of expected.now) (out-ExprKind kind.now)) part.now) notes.old notes.new (inferred_of t)) }
{
    let expected_type = expected_first_part(cx.alloc, kind, expected)?;
    check(part, cx, scope, &expected_type, notes)
}

/// Checks the part that is checked second, where this is inferred of the first.
#[cycle(check)]
fn check_second(
    part: &Expr,
    cx: &Context<'_>,
    scope: &Scope<'_>,
    kind: &ExprKind,
    expected: &Expected,
    inferred: &Inferred,
    notes: &mut Notes,
) -> Result<Inferred, AllocError>
    requires { AreNames cx.now.spec.now cx.now.names.now }
    ensures { IfOk result (λ t. IsChecked cx.now.spec.now (occurrence (scope_of scope.now) (expected_second_part (expected_of expected.now) (inferred_of inferred.now) (out-ExprKind kind.now)) part.now) notes.old notes.new (inferred_of t)) }
{
    let expected_type = expected_second_part(cx.alloc, kind, expected, inferred)?;
    check(part, cx, scope, &expected_type, notes)
}

/// Checks the part that is checked second, of which nothing is asked, where this is inferred of the first.
#[cycle(check)]
fn note_second(
    part: &Expr,
    cx: &Context<'_>,
    scope: &Scope<'_>,
    kind: &ExprKind,
    expected: &Expected,
    inferred: &Inferred,
    notes: &mut Notes,
) -> Result<(), AllocError>
    requires { AreNames cx.now.spec.now cx.now.names.now }
    ensures { OnOk result (IsNoted cx.now.spec.now (occurrence (scope_of scope.now) (expected_second_part (expected_of expected.now) (inferred_of inferred.now) (out-ExprKind kind.now)) part.now) notes.old notes.new) }
{
    let expected_type = expected_second_part(cx.alloc, kind, expected, inferred)?;
    note(part, cx, scope, &expected_type, notes)
}

/// Checks the part that is checked third, where this is inferred of the first.
#[cycle(check)]
fn note_third(
    part: &Expr,
    cx: &Context<'_>,
    scope: &Scope<'_>,
    kind: &ExprKind,
    expected: &Expected,
    inferred: &Inferred,
    notes: &mut Notes,
) -> Result<(), AllocError>
    requires { AreNames cx.now.spec.now cx.now.names.now }
    ensures { OnOk result (IsNoted cx.now.spec.now (occurrence (scope_of scope.now) (expected_third_part (expected_of expected.now) (inferred_of inferred.now) (out-ExprKind kind.now)) part.now) notes.old notes.new) }
{
    let expected_type = expected_third_part(cx.alloc, kind, expected, inferred)?;
    note(part, cx, scope, &expected_type, notes)
}

/// Checks the parts of a form over the elements of a set or of a flat value: what is inferred of that one gives what is expected of the others or
/// the sort of a variable in them.
#[cycle(check)]
fn check_over_elements(
    expr: &Expr,
    cx: &Context<'_>,
    scope: &Scope<'_>,
    expected: &Expected,
    notes: &mut Notes,
) -> Result<Inferred, AllocError>
    requires names { AreNames cx.now.spec.now cx.now.names.now }
    requires form { IsMember expr.now ⊎ (IsChoose expr.now ⊎ IsBind expr.now) }
    ensures { IfOk result (λ t. HasCheckedParts cx.now.spec.now (occurrence (scope_of scope.now) (expected_of expected.now) expr.now) notes.old notes.new (inferred_of t)) }
{
    match &expr.kind {
        ExprKind::Member(_, _) => {
            note_member(expr, cx, scope, expected, notes)?;
            Ok(Inferred::Is(ExprType::Truth))
        }
        ExprKind::Choose(_, _, _, _) => {
            note_choose(expr, cx, scope, expected, notes)?;
            Ok(Inferred::NotInferable)
        }
        _ => {
            note_bind(expr, cx, scope, expected, notes)?;
            Ok(Inferred::NotInferable)
        }
    }
}

/// Notes the faults of the parts of the question whether an element is in a set, and lists their types. What is expected of the element is inferred
/// of the set.
#[cycle(check)]
fn note_member(
    expr: &Expr,
    cx: &Context<'_>,
    scope: &Scope<'_>,
    expected: &Expected,
    notes: &mut Notes,
) -> Result<(), AllocError>
    requires names { AreNames cx.now.spec.now cx.now.names.now }
    requires form { IsMember expr.now }
    ensures { OnOk result (HasCheckedParts cx.now.spec.now (occurrence (scope_of scope.now) (expected_of expected.now) expr.now) notes.old notes.new (is truth)) }
{
    let kind = &expr.kind;
    let ExprKind::Member(element, set) = kind else {
        unreachable!()
    };
    let start = count(&notes.types);
    let inferred = check_first(set.get(), cx, scope, kind, expected, notes)?;
    note_before(
        element.get(),
        cx,
        scope,
        kind,
        expected,
        &inferred,
        start,
        notes,
    )
}

/// Notes the faults of the parts of a set that is chosen from another one, and lists their types. What is expected of the element is inferred of the
/// other set.
#[cycle(check)]
fn note_choose(
    expr: &Expr,
    cx: &Context<'_>,
    scope: &Scope<'_>,
    expected: &Expected,
    notes: &mut Notes,
) -> Result<(), AllocError>
    requires names { AreNames cx.now.spec.now cx.now.names.now }
    requires form { IsChoose expr.now }
    ensures { OnOk result (HasCheckedParts cx.now.spec.now (occurrence (scope_of scope.now) (expected_of expected.now) expr.now) notes.old notes.new not_inferable) }
{
    let kind = &expr.kind;
    let ExprKind::Choose(element, name, from, condition) = kind else {
        unreachable!()
    };
    let start = count(&notes.types);
    let inferred = check_first(from.get(), cx, scope, kind, expected, notes)?;
    let inner = inner_scope(&*scope, name, chosen_sort(expected, &inferred));
    note_before(
        element.get(),
        cx,
        &inner,
        kind,
        expected,
        &inferred,
        start,
        notes,
    )?;
    note_condition(condition, cx, &inner, kind, expected, &inferred, notes)
}

/// Checks the part that is checked second but stands before the one that is checked first, whose types stand from `start` on.
#[cycle(check)]
fn note_before(
    part: &Expr,
    cx: &Context<'_>,
    scope: &Scope<'_>,
    kind: &ExprKind,
    expected: &Expected,
    inferred: &Inferred,
    start: usize,
    notes: &mut Notes,
) -> Result<(), AllocError>
    requires names { AreNames cx.now.spec.now cx.now.names.now }
    requires within { start ≤ length (noted_types notes.old) }
    ensures { OnOk result (IsNotedBefore cx.now.spec.now (occurrence (scope_of scope.now) (expected_second_part (expected_of expected.now) (inferred_of inferred.now) (out-ExprKind kind.now)) part.now) start notes.old notes.new) }
{
    let middle = count(&notes.types);
    note_second(part, cx, scope, kind, expected, inferred, notes)?;
    put_behind(&mut notes.types, start, middle);
    Ok(())
}

/// Checks the condition on the elements of a set, if there is one, where this is inferred of the set.
#[cycle(check)]
fn note_condition(
    condition: &Option<Boxed<Expr>>,
    cx: &Context<'_>,
    scope: &Scope<'_>,
    kind: &ExprKind,
    expected: &Expected,
    inferred: &Inferred,
    notes: &mut Notes,
) -> Result<(), AllocError>
    requires { AreNames cx.now.spec.now cx.now.names.now }
    ensures { OnOk result (AreNoted cx.now.spec.now (optional (scope_of scope.now) (expected_third_part (expected_of expected.now) (inferred_of inferred.now) (out-ExprKind kind.now)) condition.now) notes.old notes.new) }
{
    match condition {
        Some(condition) => note_third(condition.get(), cx, scope, kind, expected, inferred, notes),
        None => Ok(()),
    }
}

/// Notes the faults of the parts of an expression that names the element of a flat value, and lists their types.
#[cycle(check)]
fn note_bind(
    expr: &Expr,
    cx: &Context<'_>,
    scope: &Scope<'_>,
    expected: &Expected,
    notes: &mut Notes,
) -> Result<(), AllocError>
    requires names { AreNames cx.now.spec.now cx.now.names.now }
    requires form { IsBind expr.now }
    ensures { OnOk result (HasCheckedParts cx.now.spec.now (occurrence (scope_of scope.now) (expected_of expected.now) expr.now) notes.old notes.new not_inferable) }
{
    let kind = &expr.kind;
    let ExprKind::Bind(name, flat, body) = kind else {
        unreachable!()
    };
    let inferred = check_first(flat.get(), cx, scope, kind, expected, notes)?;
    let inner = inner_scope(&*scope, name, flat_sort(&inferred));
    note_second(body.get(), cx, &inner, kind, expected, &inferred, notes)
}

/// Checks the elements of a set, or the keys and values of a map.
#[cycle(check)]
fn check_list(
    expr: &Expr,
    cx: &Context<'_>,
    scope: &Scope<'_>,
    expected: &Expected,
    notes: &mut Notes,
) -> Result<Inferred, AllocError>
    requires names { AreNames cx.now.spec.now cx.now.names.now }
    requires form { IsSetOf expr.now ⊎ IsMapOf expr.now }
    ensures { IfOk result (λ t. HasCheckedParts cx.now.spec.now (occurrence (scope_of scope.now) (expected_of expected.now) expr.now) notes.old notes.new (inferred_of t)) }
{
    match &expr.kind {
        ExprKind::SetOf(elements) => {
            let expected_type = expected_element(cx.alloc, expected)?;
            note_expecting(elements.as_slice(), cx, scope, expected_type, notes)?;
            Ok(Inferred::NotInferable)
        }
        ExprKind::MapOf(keys, values) => {
            let expected_type = expected_key(cx.alloc, expected)?;
            note_expecting(keys.as_slice(), cx, scope, expected_type, notes)?;
            let expected_type = expected_value(cx.alloc, expected)?;
            note_expecting(values.as_slice(), cx, scope, expected_type, notes)?;
            Ok(Inferred::NotInferable)
        }
        _ => unreachable!(),
    }
}

/// Notes the faults and types of expressions of which the same is expected, and lets go of what is expected.
#[cycle(check)]
fn note_expecting(
    exprs: &[Expr],
    cx: &Context<'_>,
    scope: &Scope<'_>,
    expected: Expected,
    notes: &mut Notes,
) -> Result<(), AllocError>
    requires { AreNames cx.now.spec.now cx.now.names.now }
    ensures { OnOk result (AreNoted cx.now.spec.now (map (occurrence (scope_of scope.now) (expected_of expected)) exprs.now) notes.old notes.new) }
{
    note_each(exprs, cx, scope, &expected, notes)
}

/// Notes the faults and types of expressions of which the same is expected.
#[cycle(check)]
fn note_each(
    exprs: &[Expr],
    cx: &Context<'_>,
    scope: &Scope<'_>,
    expected: &Expected,
    notes: &mut Notes,
) -> Result<(), AllocError>
    requires { AreNames cx.now.spec.now cx.now.names.now }
    ensures { OnOk result (AreNoted cx.now.spec.now (map (occurrence (scope_of scope.now) (expected_of expected.now)) exprs.now) notes.old notes.new) }
{
    for expr in exprs {
        note(expr, cx, scope, expected, notes)?;
    }
    Ok(())
}

/// Notes the faults and types of the arguments of a call, and answers the type of what the function of this name gives.
#[cycle(check)]
fn check_call(
    name: &Text,
    given: &[Expr],
    cx: &Context<'_>,
    scope: &Scope<'_>,
    notes: &mut Notes,
) -> Result<Inferred, AllocError>
    requires { AreNames cx.now.spec.now cx.now.names.now }
    ensures { IfOk result (λ t. HasCheckedArguments cx.now.spec.now (scope_of scope.now) name.now given.now notes.old notes.new (inferred_of t)) }
{
    let declared = declared_arguments(cx, name);
    note_arguments(given, cx, scope, declared, notes)?;
    result_inferred(cx, name)
}

/// Notes the faults and types of an argument of a call, of which this lattice is declared.
#[cycle(check)]
fn note_argument(
    argument: &Expr,
    cx: &Context<'_>,
    scope: &Scope<'_>,
    declared: Option<&Named>,
    notes: &mut Notes,
) -> Result<(), AllocError>
    requires { AreNames cx.now.spec.now cx.now.names.now }
    ensures { OnOk result (IsNoted cx.now.spec.now (occurrence (scope_of scope.now) (expected_argument (option_copied declared.entry)) argument.now) notes.old notes.new) }
{
    let expected_type = expected_argument(declared)?;
    note(argument, cx, scope, &expected_type, notes)
}

/// Notes the faults and types of the arguments of a call, of which these lattices are declared.
#[cycle(check)]
fn note_arguments(
    given: &[Expr],
    cx: &Context<'_>,
    scope: &Scope<'_>,
    declared: &[Named],
    notes: &mut Notes,
) -> Result<(), AllocError>
    requires { AreNames cx.now.spec.now cx.now.names.now }
    ensures { OnOk result (AreNoted cx.now.spec.now (arguments (scope_of scope.now) declared.now given.now) notes.old notes.new) }
{
    for (at, argument) in given.iter().enumerate() {
        note_argument(argument, cx, scope, declared.get(at), notes)?;
    }
    Ok(())
}
