//! Which values a lattice has. Nothing here takes memory.
ghost use Rattle.std.specs.Prelude.{◌≡◌, ◌↔◌, [], IsTrue, All};
ghost use Rattle.std.specs.Map.{keys_of, values_of};
ghost use Rattle.flow_term.specs.declared.value.Value.{out-Value};
ghost use Rattle.flow_term.specs.declared.value.Value.TheVariants.{Bottom, Item, Map, Set, Unreached};
ghost use Rattle.flow_syntax.specs.Types.{sort_of};
ghost use Rattle.value_domains.specs.Domains.{IsListed, IsValueOf, least_of};
ghost use Rattle.value_domains.specs.Values.{IsFlat, IsMapOf, IsMay, IsMust, IsOfSort, IsSetOf, is_of_sort, pairs_of};
ghost use Rattle.lattice_any.specs.Members.{IsKeptIn};
ghost use Rattle.lattice_any.specs.Tables.{table_of_names};
ghost use Rattle.lattice_any.specs.Types.{domain_of_any};

use crate::any::AnyL;
use crate::named::NamedTable;
use flow_syntax::ElemSort;
use flow_term::{Elem, Entry, Text, Value};
use value_text::{elems_rise, keys_rise};

/// Whether the element is of the sort.
fn has_sort(sort: &ElemSort, elem: &Elem) -> bool
    ensures { result ≡ is_of_sort (sort_of sort.now) elem.now }
{
    match sort {
        ElemSort::Name => matches!(elem, Elem::Name(_)),
        ElemSort::Pos => matches!(elem, Elem::Pos(_)),
        ElemSort::Str => matches!(elem, Elem::Str(_)),
        ElemSort::Int => matches!(elem, Elem::Int(_)),
        ElemSort::Enum(_) => matches!(elem, Elem::Item(_)),
        ElemSort::Pair(first, second) => match elem {
            Elem::Pair(a, b) => has_sort(first.get(), a.get()) && has_sort(second.get(), b.get()),
            _ => false,
        },
    }
}

/// Whether each element is of the sort.
fn have_sort(sort: &ElemSort, elems: &[Elem]) -> bool
    ensures { IsTrue result ↔ All (IsOfSort (sort_of sort.now)) elems.now }
{
    elems.iter().all(|elem| has_sort(sort, elem))
}

/// Whether the elements are a set of the sort.
fn is_set(sort: &ElemSort, elems: &[Elem]) -> bool
    ensures { IsTrue result ↔ IsSetOf (sort_of sort.now) elems.now }
{
    elems_rise(elems) && have_sort(sort, elems)
}

fn is_may(sort: &ElemSort, value: &Value) -> bool
    ensures { IsTrue result ↔ IsMay (sort_of sort.now) (out-Value value.now) }
{
    match value {
        Value::Set(elems) => is_set(sort, elems.as_slice()),
        _ => false,
    }
}

fn is_must(sort: &ElemSort, value: &Value) -> bool
    ensures { IsTrue result ↔ IsMust (sort_of sort.now) (out-Value value.now) }
{
    match value {
        Value::Unreached => true,
        Value::Set(elems) => is_set(sort, elems.as_slice()),
        _ => false,
    }
}

fn is_flat(sort: &ElemSort, value: &Value) -> bool
    ensures { IsTrue result ↔ IsFlat (sort_of sort.now) (out-Value value.now) }
{
    match value {
        Value::Bottom | Value::Top => true,
        Value::Flat(elem) => has_sort(sort, elem),
        _ => false,
    }
}

fn is_empty_set(value: &Value) -> bool
    ensures { IsTrue result ↔ (value.now ≡ Set []) }
{
    match value {
        Value::Set(elems) => elems.as_slice().is_empty(),
        _ => false,
    }
}

fn is_empty_map(value: &Value) -> bool
    ensures { IsTrue result ↔ (value.now ≡ Map []) }
{
    match value {
        Value::Map(entries) => entries.as_slice().is_empty(),
        _ => false,
    }
}

fn is_unreached(value: &Value) -> bool
    ensures { IsTrue result ↔ (value.now ≡ Unreached) }
{
    matches!(value, Value::Unreached)
}

fn is_bottom(value: &Value) -> bool
    ensures { IsTrue result ↔ (value.now ≡ Bottom) }
{
    matches!(value, Value::Bottom)
}

/// Whether the value is the element of this name.
fn is_item(value: &Value, name: &Text) -> bool
    ensures { IsTrue result ↔ (value.now ≡ Item name.now) }
{
    match value {
        Value::Item(x) => x == name,
        _ => false,
    }
}

/// Whether the value is an element of the table.
fn is_listed(table: &NamedTable, value: &Value) -> bool
    ensures { IsTrue result ↔ IsListed (table_of_names table.now) (out-Value value.now) }
{
    match value {
        Value::Item(x) => table.has(x),
        _ => false,
    }
}

/// Whether the value is the least of the lattice.
pub(crate) fn is_least(lattice: &AnyL, value: &Value) -> bool
    ensures { IsTrue result ↔ (value.now ≡ least_of (domain_of_any lattice.now)) }
{
    match lattice {
        AnyL::May(_) => is_empty_set(value),
        AnyL::Must(_) => is_unreached(value),
        AnyL::Flat(_) => is_bottom(value),
        AnyL::Map(_, _) => is_empty_map(value),
        AnyL::Pair(left, right) => match value {
            Value::Pair(a, b) => is_least(left.get(), a.get()) && is_least(right.get(), b.get()),
            _ => false,
        },
        AnyL::Table(table) => is_item(value, table.least()),
    }
}

/// Whether each key is of the sort.
fn keys_have_sort(sort: &ElemSort, entries: &[Entry]) -> bool
    ensures { IsTrue result ↔ All (IsOfSort (sort_of sort.now)) (keys_of (pairs_of entries.now)) }
{
    entries.iter().all(|entry| has_sort(sort, &entry.key))
}

/// Whether the value is one of the lattice.
#[cycle(member)]
pub(crate) fn is_value(lattice: &AnyL, value: &Value) -> bool
    ensures { IsTrue result ↔ IsValueOf (domain_of_any lattice.now) value.now }
{
    match lattice {
        AnyL::May(sort) => is_may(sort, value),
        AnyL::Must(sort) => is_must(sort, value),
        AnyL::Flat(sort) => is_flat(sort, value),
        AnyL::Map(sort, values) => match value {
            Value::Map(entries) => is_map(sort, values.get(), entries.as_slice()),
            _ => false,
        },
        AnyL::Pair(left, right) => match value {
            Value::Pair(a, b) => is_value(left.get(), a.get()) && is_value(right.get(), b.get()),
            _ => false,
        },
        AnyL::Table(table) => is_listed(table, value),
    }
}

/// Whether the entries are a map from elements of the sort to values of the lattice.
#[cycle(member)]
fn is_map(sort: &ElemSort, values: &AnyL, entries: &[Entry]) -> bool
    ensures { IsTrue result ↔ IsMapOf (sort_of sort.now) (IsValueOf (domain_of_any values.now)) (least_of (domain_of_any values.now)) (pairs_of entries.now) }
{
    keys_rise(entries) && keys_have_sort(sort, entries) && are_kept(values, entries)
}

/// Whether each value is one of the lattice other than its least.
#[cycle(member)]
fn are_kept(values: &AnyL, entries: &[Entry]) -> bool
    ensures { IsTrue result ↔ All (λ e. IsKeptIn (domain_of_any values.now) e.value) entries.now }
{
    for entry in entries {
        if !is_value(values, &entry.value) || is_least(values, &entry.value) {
            return false;
        }
    }
    true
}
