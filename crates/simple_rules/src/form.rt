//! How an expression holds reads of properties.
ghost use Rattle.std.specs.Prelude.{◌≡◌};
ghost use Rattle.std.specs.List.{list_any};
ghost use Rattle.simple_rules.specs.inner.Forms.{HasForm, IsMerge, joined_form, without_form};
ghost use Rattle.flow_syntax.specs.Expressions.{all_of_option, expr_layer};
ghost use Rattle.simple_rules.specs.Simple.{holds_read};

use flow_syntax::{Expr, ExprKind, SetOp};
use flow_term::Boxed;

/// How an expression holds reads.
#[derive(Clone, Copy, Debug, PartialEq, Eq)]
pub enum Form {
    /// It holds none.
    Fixed,
    /// It holds one, and is simple.
    Rising,
    /// It isn't simple.
    Other,
}

/// The form of an expression. It's found in one walk: the joins, unions and differences at its top are gone through once, and of
/// what stands below them each part is looked at once more for reads.
pub fn form_of(e: &Expr) -> Form
    ensures { HasForm e.now result }
{
    let ExprKind::Set2(operation, a, b) = &e.kind else {
        return form_by_reads(e);
    };
    match operation {
        SetOp::Join | SetOp::Union => joined(form_of(a.get()), form_of(b.get())),
        SetOp::Inter => form_by_reads(e),
        SetOp::Minus => without(form_of(a.get()), form_of(b.get())),
    }
}

/// The form of an expression that is no join, union or difference.
fn form_by_reads(e: &Expr) -> Form
    requires { ¬ IsMerge (expr_layer e.now) }
    ensures { HasForm e.now result }
{
    match &e.kind {
        ExprKind::Read(_, _) => Form::Rising,
        _ if holds_read(e) => Form::Other,
        _ => Form::Fixed,
    }
}

/// The form of the join or union of expressions of these forms.
fn joined(a: Form, b: Form) -> Form
    ensures { result ≡ joined_form a b }
{
    match (a, b) {
        (Form::Fixed, Form::Fixed) => Form::Fixed,
        (Form::Other, _) | (_, Form::Other) => Form::Other,
        _ => Form::Rising,
    }
}

/// The form of an expression of the first form without one of the second.
fn without(a: Form, b: Form) -> Form
    ensures { result ≡ without_form a b }
{
    match b {
        Form::Fixed => a,
        _ => Form::Other,
    }
}

/// Whether an expression or a part of it is a read.
#[cycle(reads)]
#[tactic(auto, using(crate::proofs::HeldReads::holds_read_out))]
fn holds_read(e: &Expr) -> bool
    ensures { result ≡ holds_read e.now }
{
    match &e.kind {
        ExprKind::Read(_, _) => true,
        ExprKind::Call(_, parts) | ExprKind::SetOf(parts) => any_holds_read(parts.as_slice()),
        ExprKind::MapOf(keys, values) => {
            any_holds_read(keys.as_slice()) | any_holds_read(values.as_slice())
        }
        ExprKind::Choose(element, _, set, condition) => {
            holds_read(element.get()) | holds_read(set.get()) | some_holds_read(condition)
        }
        ExprKind::MakeFlat(a)
        | ExprKind::Fst(a)
        | ExprKind::Snd(a)
        | ExprKind::Minus(a)
        | ExprKind::Not(a) => holds_read(a.get()),
        ExprKind::Both(a, b)
        | ExprKind::Look(a, b)
        | ExprKind::Set2(_, a, b)
        | ExprKind::Arith(_, a, b)
        | ExprKind::Compare(_, a, b)
        | ExprKind::Member(a, b)
        | ExprKind::And(a, b)
        | ExprKind::Or(a, b)
        | ExprKind::Bind(_, a, b) => holds_read(a.get()) | holds_read(b.get()),
        ExprKind::Update(a, b, c) | ExprKind::If(a, b, c) => {
            holds_read(a.get()) | holds_read(b.get()) | holds_read(c.get())
        }
        _ => false,
    }
}

#[cycle(reads)]
fn some_holds_read(condition: &Option<Boxed<Expr>>) -> bool
    ensures { result ≡ list_any holds_read (all_of_option condition.now) }
{
    match condition {
        None => false,
        Some(condition) => holds_read(condition.get()),
    }
}

#[cycle(reads)]
fn any_holds_read(es: &[Expr]) -> bool
    ensures { result ≡ list_any holds_read es.now }
{
    for e in es {
        if holds_read(e) {
            return true;
        }
    }
    false
}
