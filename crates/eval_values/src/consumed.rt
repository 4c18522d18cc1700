//! Operations that take what was held, so that a run holds no more than one value at a time.
ghost use Rattle.std.specs.Prelude.{◌≡◌, IfOk, OnOk};
ghost use Rattle.std.specs.BTreeSet.{insert_key};
ghost use Rattle.std.specs.List.Sorted.{IsStrictlySortedBy};
ghost use Rattle.flow_term.specs.Elements.{elem_cmp};
ghost use Rattle.flow_term.specs.declared.elem.Elem.{out-Elem};
ghost use Rattle.flow_term.specs.declared.elem.Elem.TheVariants.{Int, Pair as ElemPair};
ghost use Rattle.flow_term.specs.declared.value.Value.{out-Value};
ghost use Rattle.flow_term.specs.declared.value.Value.TheVariants.{Flat, Pair};
ghost use Rattle.value_domains.specs.Domains.{IsValueOf, joined_of};
ghost use Rattle.lattice_any.specs.Types.{domain_of_any};
ghost use Rattle.expr_meaning.specs.Meaning.{arith_value, compared, int_in, is_member as member};
ghost use Rattle.eval_code.specs.Needs.{elems_of};
ghost use Rattle.eval_code.specs.Senses.{combined, without};
ghost use Rattle.eval_values.specs.Held.{elem_of, value_of};

use crate::held::{Held, HeldElem};
use crate::numbers::{compare, made_int};
use crate::sets::{combine, insert_elem, is_member, remove_elem};
use eval_code::Combination;
use flow_syntax::{ArithOp, CompareOp};
use flow_term::{Elem, Value};
use lattice_any::AnyL;
use lattice_base::Lattice;
use lattice_sets::SortedSet;
use std::alloc::{AllocError, Global};

/// A set made of two, not reached where one of them isn't. Fails only for want of memory.
pub fn combine_held<'a>(
    alloc: Global,
    op: Combination,
    a: Held<'a>,
    b: Held<'a>,
) -> Result<Held<'a>, AllocError>
    requires left { IsStrictlySortedBy elem_cmp (elems_of (value_of a)) }
    requires right { IsStrictlySortedBy elem_cmp (elems_of (value_of b)) }
    ensures { IfOk result (λ value. value_of value ≡ combined op (value_of a.entry) (value_of b.entry)) }
{
    Ok(Held::Made(combine(alloc, op, a.get(), b.get())?))
}

/// The set without this element; what is not reached stays so. Fails only for want of memory.
pub fn remove_held<'a>(
    alloc: Global,
    set: Held<'a>,
    gone: HeldElem<'a>,
) -> Result<Held<'a>, AllocError>
    ensures { IfOk result (λ value. value_of value ≡ without (value_of set.entry) (elem_of gone.entry)) }
{
    Ok(Held::Made(remove_elem(alloc, set.get(), gone.get())?))
}

/// Whether the element is in the set; all are in what is not reached. Takes no memory.
pub fn is_held_member<'a>(elem: HeldElem<'a>, set: Held<'a>) -> bool
    requires { IsStrictlySortedBy elem_cmp (elems_of (value_of set)) }
    ensures { result ≡ member (elem_of elem.entry) (out-Value (value_of set.entry)) }
{
    is_member(elem.get(), set.get())
}

/// Whether the comparison holds of two elements. Takes no memory.
pub fn compare_held<'a>(op: CompareOp, a: HeldElem<'a>, b: HeldElem<'a>) -> bool
    ensures { result ≡ compared op (elem_of a.entry) (elem_of b.entry) }
{
    compare(op, a.get(), b.get())
}

/// The result of an operation on two integers, which wraps at 64 bits. Takes no memory.
pub fn made_int_held<'a>(op: ArithOp, a: HeldElem<'a>, b: HeldElem<'a>) -> HeldElem<'a>
    ensures { elem_of result ≡ Int (arith_value op (int_in (out-Elem (elem_of a.entry))) (int_in (out-Elem (elem_of b.entry)))) }
{
    HeldElem::Made(made_int(op, a.get(), b.get()))
}

/// The join of two values of the lattice. Fails only for want of memory.
pub fn join_held<'a>(
    alloc: Global,
    lattice: &AnyL,
    a: Held<'a>,
    b: Held<'a>,
) -> Result<Held<'a>, AllocError>
    requires left { IsValueOf (domain_of_any lattice.now) (value_of a) }
    requires right { IsValueOf (domain_of_any lattice.now) (value_of b) }
    ensures { IfOk result (λ value. value_of value ≡ joined_of (domain_of_any lattice.now) (value_of a.entry) (value_of b.entry)) }
{
    Ok(Held::Made(lattice.join(alloc, a.get(), b.get())?))
}

/// Puts an element into a set that is being made; it is copied where it was lent. Fails only for want of memory.
pub fn insert_held<'a>(
    alloc: Global,
    set: &mut SortedSet<Elem>,
    elem: HeldElem<'a>,
) -> Result<(), AllocError>
    ensures { OnOk result (set.new ≡ insert_key elem_cmp set.old (elem_of elem.entry)) }
{
    insert_elem(set, elem.own(alloc)?)
}

/// The flat value of an element; it is copied where it was lent. Fails only for want of memory.
pub fn flat_held<'a>(alloc: Global, elem: HeldElem<'a>) -> Result<Held<'a>, AllocError>
    ensures { IfOk result (λ value. value_of value ≡ Flat (elem_of elem.entry)) }
{
    Ok(Held::Made(Value::Flat(elem.own(alloc)?)))
}

/// The pair of two values; what was lent is copied. Fails only for want of memory.
pub fn pair_held<'a>(alloc: Global, a: Held<'a>, b: Held<'a>) -> Result<Held<'a>, AllocError>
    ensures { IfOk result (λ value. value_of value ≡ Pair (value_of a.entry) (value_of b.entry)) }
{
    let left = a.boxed(alloc)?;
    let right = b.boxed(alloc)?;
    Ok(Held::Made(Value::Pair(left, right)))
}

/// The pair of two elements; what was lent is copied. Fails only for want of memory.
pub fn pair_elem_held<'a>(
    alloc: Global,
    a: HeldElem<'a>,
    b: HeldElem<'a>,
) -> Result<HeldElem<'a>, AllocError>
    ensures { IfOk result (λ elem. elem_of elem ≡ ElemPair (elem_of a.entry) (elem_of b.entry)) }
{
    let left = a.boxed(alloc)?;
    let right = b.boxed(alloc)?;
    Ok(HeldElem::Made(Elem::Pair(left, right)))
}
