//! Integers and comparisons of elements.
ghost use Rattle.std.specs.Prelude.{◌≡◌};
ghost use Rattle.std.specs.Int.{int_wrapping_neg};
ghost use Rattle.std.specs.Ordering.{eq_by_cmp, is_le};
ghost use mir.Syntax.{w64};
ghost use Rattle.flow_term.specs.Elements.{elem_cmp};
ghost use Rattle.flow_term.specs.declared.elem.Elem.{out-Elem};
ghost use Rattle.flow_term.specs.declared.elem.Elem.TheVariants.{Int};
ghost use Rattle.expr_meaning.specs.Meaning.{arith_value, compared, int_in};

use flow_syntax::{ArithOp, CompareOp};
use flow_term::Elem;

/// The integer; of another element 0.
fn int_of(elem: &Elem) -> i64
    ensures { result ≡ int_in (out-Elem elem.now) }
{
    match elem {
        Elem::Int(number) => *number,
        _ => 0,
    }
}

/// The result of an operation on two integers, which wraps at 64 bits.
fn result_of(op: ArithOp, a: i64, b: i64) -> i64
    ensures { result ≡ arith_value op a b }
{
    match op {
        ArithOp::Add => a.wrapping_add(b),
        ArithOp::Sub => a.wrapping_sub(b),
        ArithOp::Mul => a.wrapping_mul(b),
    }
}

/// The result of an operation on two integers, which wraps at 64 bits.
pub fn made_int(op: ArithOp, a: &Elem, b: &Elem) -> Elem
    ensures { result ≡ Int (arith_value op (int_in (out-Elem a.now)) (int_in (out-Elem b.now))) }
{
    Elem::Int(result_of(op, int_of(a), int_of(b)))
}

/// The integer with the other sign, which wraps at 64 bits.
pub fn negated_int(a: &Elem) -> Elem
    ensures { result ≡ Int (int_wrapping_neg w64 (int_in (out-Elem a.now))) }
{
    Elem::Int(int_of(a).wrapping_neg())
}

/// Whether the two are one element.
pub(crate) fn is_same(x: &Elem, y: &Elem) -> bool
    ensures { result ≡ eq_by_cmp elem_cmp x.now y.now }
{
    x.cmp(y).is_eq()
}

/// Whether the first is below the second, or is the same.
pub(crate) fn is_below_or_same(x: &Elem, y: &Elem) -> bool
    ensures { result ≡ is_le (elem_cmp x.now y.now) }
{
    x.cmp(y).is_le()
}

/// Whether the comparison holds of two elements.
pub fn compare(op: CompareOp, a: &Elem, b: &Elem) -> bool
    ensures { result ≡ compared op a.now b.now }
{
    match op {
        CompareOp::Eq => is_same(a, b),
        CompareOp::Ne => !is_same(a, b),
        CompareOp::Lt => int_of(a) < int_of(b),
        CompareOp::Le => int_of(a) <= int_of(b),
    }
}
