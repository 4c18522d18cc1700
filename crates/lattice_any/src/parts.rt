//! What values hold, and the operations on sets inside them.
ghost use Rattle.std.specs.Prelude.{◌≡◌, ◌↔◌, ◌++◌, ◌∷◌, [], IsTrue, IfOk, OnOk};
ghost use Rattle.std.specs.List.Sorted.{IsStrictlySortedBy};
ghost use Rattle.std.specs.Ordering.{eq_by_cmp};
ghost use Rattle.flow_term.specs.Elements.{elem_cmp};
ghost use Rattle.flow_term.specs.declared.value.Value.{out-Value, roll-Value};
ghost use Rattle.value_domains.specs.Domains.{item_in};
ghost use Rattle.lattice_any.specs.inner.Items.{IsSomeItem};
ghost use Rattle.value_domains.specs.Values.{elems_in, entries_in, flat_join, Includes, intersection_of, IsBelowFlat, IsBelowMust, IsSomePair, left_in, must_join, pairs_of, right_in, union_of};

use flow_term::{Elem, Entry, List, Text, Value};
use std::alloc::{AllocError, Global};

/// The elements of a set; of another value none.
pub(crate) fn elems(value: &Value) -> &[Elem]
    ensures { result.now ≡ elems_in (out-Value value.now) }
{
    match value {
        Value::Set(elems) => elems.as_slice(),
        _ => &[],
    }
}

/// The entries of a map; of another value none.
pub(crate) fn entries(value: &Value) -> &[Entry]
    ensures { result.now ≡ entries_in (out-Value value.now) }
{
    match value {
        Value::Map(entries) => entries.as_slice(),
        _ => &[],
    }
}

/// The elements of either set.
pub(crate) fn union(alloc: Global, a: &[Elem], b: &[Elem]) -> Result<List<Elem>, AllocError>
    requires left { IsStrictlySortedBy elem_cmp a.now }
    requires right { IsStrictlySortedBy elem_cmp b.now }
    ensures { IfOk result (λ elems. elems ≡ union_of a.now b.now) }
{
    lattice_sets::union(alloc, a, b)
}

/// The elements of both sets.
pub(crate) fn inter(alloc: Global, a: &[Elem], b: &[Elem]) -> Result<List<Elem>, AllocError>
    requires left { IsStrictlySortedBy elem_cmp a.now }
    requires right { IsStrictlySortedBy elem_cmp b.now }
    ensures { IfOk result (λ elems. elems ≡ intersection_of a.now b.now) }
{
    lattice_sets::inter(alloc, a, b)
}

/// Whether each element of `b` is in `a`.
pub(crate) fn includes(a: &[Elem], b: &[Elem]) -> bool
    requires left { IsStrictlySortedBy elem_cmp a.now }
    requires right { IsStrictlySortedBy elem_cmp b.now }
    ensures { IsTrue result ↔ Includes a.now b.now }
{
    lattice_sets::includes(a, b)
}

/// Whether the two are one element.
pub(crate) fn is_same(x: &Elem, y: &Elem) -> bool
    ensures { result ≡ eq_by_cmp elem_cmp x.now y.now }
{
    x.cmp(y).is_eq()
}

/// The join of two must sets.
pub(crate) fn join_must(alloc: Global, a: &Value, b: &Value) -> Result<Value, AllocError>
    requires left { IsStrictlySortedBy elem_cmp (elems_in (out-Value a.now)) }
    requires right { IsStrictlySortedBy elem_cmp (elems_in (out-Value b.now)) }
    ensures { IfOk result (λ value. value ≡ roll-Value (must_join (out-Value a.now) (out-Value b.now))) }
{
    match (a, b) {
        (Value::Unreached, value) => value.duplicate(alloc),
        (Value::Set(x), Value::Set(y)) => {
            Ok(Value::Set(inter(alloc, x.as_slice(), y.as_slice())?))
        }
        (value, _) => value.duplicate(alloc),
    }
}

/// The join of two flat values.
pub(crate) fn join_flat(alloc: Global, a: &Value, b: &Value) -> Result<Value, AllocError>
    ensures { IfOk result (λ value. value ≡ roll-Value (flat_join (out-Value a.now) (out-Value b.now))) }
{
    match (a, b) {
        (Value::Bottom, value) | (value, Value::Bottom) => value.duplicate(alloc),
        (Value::Flat(x), Value::Flat(y)) if is_same(x, y) => a.duplicate(alloc),
        _ => Ok(Value::Top),
    }
}

/// The parts of a pair.
pub(crate) fn parts(value: &Value) -> (&Value, &Value)
    requires { IsSomePair (out-Value value.now) }
    ensures left { result.0.now ≡ left_in (out-Value value.now) }
    ensures right { result.1.now ≡ right_in (out-Value value.now) }
{
    match value {
        Value::Pair(left, right) => (left.get(), right.get()),
        _ => unreachable!(),
    }
}

/// The name of an element of a declared lattice.
pub(crate) fn item(value: &Value) -> &Text
    requires { IsSomeItem (out-Value value.now) }
    ensures { result.now ≡ item_in (out-Value value.now) }
{
    match value {
        Value::Item(name) => name,
        _ => unreachable!(),
    }
}

/// Adds a copy of an entry at the end of a list.
pub(crate) fn push_copy(
    alloc: Global,
    list: &mut List<Entry>,
    entry: &Entry,
) -> Result<(), AllocError>
    ensures { OnOk result (pairs_of list.new ≡ pairs_of list.old ++ (entry.now.key, entry.now.value) ∷ []) }
{
    list.push(entry.duplicate(alloc)?)
}

/// Adds copies of the entries at the end of a list.
pub(crate) fn push_copies(
    alloc: Global,
    list: &mut List<Entry>,
    entries: &[Entry],
) -> Result<(), AllocError>
    ensures { OnOk result (pairs_of list.new ≡ pairs_of list.old ++ pairs_of entries.now) }
{
    for entry in entries {
        push_copy(alloc, list, entry)?;
    }
    Ok(())
}

/// Whether a must set is below another or equals it.
pub(crate) fn is_below_must(a: &Value, b: &Value) -> bool
    requires left { IsStrictlySortedBy elem_cmp (elems_in (out-Value a.now)) }
    requires right { IsStrictlySortedBy elem_cmp (elems_in (out-Value b.now)) }
    ensures { IsTrue result ↔ IsBelowMust (out-Value a.now) (out-Value b.now) }
{
    match (a, b) {
        (Value::Unreached, _) => true,
        (Value::Set(x), Value::Set(y)) => includes(x.as_slice(), y.as_slice()),
        _ => false,
    }
}

/// Whether a flat value is below another or equals it.
pub(crate) fn is_below_flat(a: &Value, b: &Value) -> bool
    ensures { IsTrue result ↔ IsBelowFlat (out-Value a.now) (out-Value b.now) }
{
    match (a, b) {
        (Value::Bottom, _) | (_, Value::Top) => true,
        (Value::Flat(x), Value::Flat(y)) => is_same(x, y),
        _ => false,
    }
}
