//! Sets inside values.
ghost use Rattle.std.specs.Prelude.{◌≡◌, [], ◌∷◌, ◌++◌, not, if◌then◌else◌, IfOk, OnErr, OnOk};
ghost use Rattle.std.specs.BTreeSet.{insert_key};
ghost use Rattle.std.specs.List.Sorted.{IsStrictlySortedBy};
ghost use Rattle.std.specs.Ordering.{eq_by_cmp};
ghost use Rattle.flow_term.specs.Elements.{elem_cmp};
ghost use Rattle.flow_term.specs.declared.value.Value.{out-Value};
ghost use Rattle.value_domains.specs.Values.{has_elem, intersection_of, union_of};
ghost use Rattle.expr_meaning.specs.Meaning.{difference_of, is_member as member, is_unreached as unreached};
ghost use Rattle.eval_code.specs.Needs.{elems_of};
ghost use Rattle.eval_code.specs.Senses.{combined, elems_combined, without};

use crate::numbers::is_same;
use eval_code::Combination;
use flow_term::{Elem, List, Value};
use lattice_sets::SortedSet;
use std::alloc::{AllocError, Global};

/// The elements of a set; of another value none.
pub fn set_elems(value: &Value) -> &[Elem]
    ensures { result.now ≡ elems_of value.now }
{
    match value {
        Value::Set(elems) => elems.as_slice(),
        _ => &[],
    }
}

/// Whether the value is what is not reached.
pub fn is_unreached(value: &Value) -> bool
    ensures { result ≡ unreached (out-Value value.now) }
{
    matches!(value, Value::Unreached)
}

fn union(alloc: Global, a: &[Elem], b: &[Elem]) -> Result<List<Elem>, AllocError>
    requires left { IsStrictlySortedBy elem_cmp a.now }
    requires right { IsStrictlySortedBy elem_cmp b.now }
    ensures { IfOk result (λ elems. elems ≡ union_of a.now b.now) }
{
    lattice_sets::union(alloc, a, b)
}

fn inter(alloc: Global, a: &[Elem], b: &[Elem]) -> Result<List<Elem>, AllocError>
    requires left { IsStrictlySortedBy elem_cmp a.now }
    requires right { IsStrictlySortedBy elem_cmp b.now }
    ensures { IfOk result (λ elems. elems ≡ intersection_of a.now b.now) }
{
    lattice_sets::inter(alloc, a, b)
}

fn minus(alloc: Global, a: &[Elem], b: &[Elem]) -> Result<List<Elem>, AllocError>
    requires left { IsStrictlySortedBy elem_cmp a.now }
    requires right { IsStrictlySortedBy elem_cmp b.now }
    ensures { IfOk result (λ elems. elems ≡ difference_of a.now b.now) }
{
    lattice_sets::minus(alloc, a, b)
}

/// The elements of a set made of two.
fn combine_elems(
    alloc: Global,
    op: Combination,
    a: &[Elem],
    b: &[Elem],
) -> Result<List<Elem>, AllocError>
    requires left { IsStrictlySortedBy elem_cmp a.now }
    requires right { IsStrictlySortedBy elem_cmp b.now }
    ensures { IfOk result (λ elems. elems ≡ elems_combined op a.now b.now) }
{
    match op {
        Combination::Union => union(alloc, a, b),
        Combination::Inter => inter(alloc, a, b),
        Combination::Minus => minus(alloc, a, b),
    }
}

/// A set made of two, not reached where one of them isn't. Fails only for want of memory.
pub fn combine(alloc: Global, op: Combination, a: &Value, b: &Value) -> Result<Value, AllocError>
    requires left { IsStrictlySortedBy elem_cmp (elems_of a.now) }
    requires right { IsStrictlySortedBy elem_cmp (elems_of b.now) }
    ensures { IfOk result (λ value. value ≡ combined op a.now b.now) }
{
    if is_unreached(a) || is_unreached(b) {
        return Ok(Value::Unreached);
    }
    Ok(Value::Set(combine_elems(alloc, op, set_elems(a), set_elems(b))?))
}

/// Adds a copy of an element at the end of a list, unless it is this one.
fn push_other(
    alloc: Global,
    list: &mut List<Elem>,
    elem: &Elem,
    gone: &Elem,
) -> Result<(), AllocError>
    ensures { OnOk result (list.new ≡ list.old ++ difference_of (elem.now ∷ []) (gone.now ∷ [])) }
{
    if is_same(elem, gone) {
        return Ok(());
    }
    list.push(elem.duplicate(alloc)?)
}

/// The elements other than this one.
fn others(alloc: Global, elems: &[Elem], gone: &Elem) -> Result<List<Elem>, AllocError>
    ensures { IfOk result (λ list. list ≡ difference_of elems.now (gone.now ∷ [])) }
{
    let mut list = List::new(alloc);
    for elem in elems {
        push_other(alloc, &mut list, elem, gone)?;
    }
    Ok(list)
}

/// The set without this element; what is not reached stays so. Fails only for want of memory.
pub fn remove_elem(alloc: Global, set: &Value, gone: &Elem) -> Result<Value, AllocError>
    ensures { IfOk result (λ value. value ≡ without set.now gone.now) }
{
    if is_unreached(set) {
        return Ok(Value::Unreached);
    }
    Ok(Value::Set(others(alloc, set_elems(set), gone)?))
}

fn has(elems: &[Elem], elem: &Elem) -> bool
    requires { IsStrictlySortedBy elem_cmp elems.now }
    ensures { result ≡ has_elem elems.now elem.now }
{
    lattice_sets::contains(elems, elem)
}

/// Whether the element is in the set; all are in what is not reached. Takes no memory.
pub fn is_member(elem: &Elem, set: &Value) -> bool
    requires { IsStrictlySortedBy elem_cmp (elems_of set.now) }
    ensures { result ≡ member elem.now (out-Value set.now) }
{
    if is_unreached(set) {
        return true;
    }
    has(set_elems(set), elem)
}

/// Puts an element into a set. Fails only for want of memory, and then the set stays as it was.
pub fn insert_elem(set: &mut SortedSet<Elem>, elem: Elem) -> Result<(), AllocError>
    ensures ok { OnOk result (set.new ≡ insert_key elem_cmp set.old elem) }
    ensures err { OnErr result (set.new ≡ set.old) }
{
    let _rises = set.items();
    set.insert(elem)?;
    Ok(())
}
