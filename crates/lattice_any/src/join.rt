//! Joins, by recursion on the lattice.
ghost use Rattle.std.specs.Prelude.{◌≡◌, ◌++◌, ◌∷◌, [], IfOk, OnOk};
ghost use Rattle.flow_term.specs.Elements.{elem_cmp};
ghost use Rattle.lattice_sets.specs.Maps.{IsMap};
ghost use Rattle.value_domains.specs.Domains.{IsValueOf, least_of, joined_of};
ghost use Rattle.value_domains.specs.Values.{entries_of, map_join, pairs_of};
ghost use Rattle.lattice_any.specs.Types.{domain_of_any};

use crate::any::AnyL;
use crate::parts::{
    elems, entries, item, join_flat, join_must, parts, push_copies, push_copy, union,
};
use flow_term::{Boxed, Element, Entry, List, Value};
use std::alloc::{AllocError, Global};
use std::cmp::Ordering;

/// The join of two values of the lattice.
#[cycle(join)]
pub(crate) fn join_values(
    lattice: &AnyL,
    alloc: Global,
    a: &Value,
    b: &Value,
) -> Result<Value, AllocError>
    requires left { IsValueOf (domain_of_any lattice.now) a.now }
    requires right { IsValueOf (domain_of_any lattice.now) b.now }
    ensures { IfOk result (λ value. value ≡ joined_of (domain_of_any lattice.now) a.now b.now) }
{
    match lattice {
        AnyL::May(_) => Ok(Value::Set(union(alloc, elems(a), elems(b))?)),
        AnyL::Must(_) => join_must(alloc, a, b),
        AnyL::Flat(_) => join_flat(alloc, a, b),
        AnyL::Map(_, values) => {
            let joined = join_entries(values.get(), alloc, entries(a), entries(b))?;
            Ok(Value::Map(joined))
        }
        AnyL::Pair(left, right) => {
            let (a_left, a_right) = parts(a);
            let (b_left, b_right) = parts(b);
            let first = join_values(left.get(), alloc, a_left, b_left)?;
            let second = join_values(right.get(), alloc, a_right, b_right)?;
            Ok(Value::Pair(Boxed::new(alloc, first)?, Boxed::new(alloc, second)?))
        }
        AnyL::Table(table) => Ok(Value::Item(table.join(item(a), item(b)).duplicate()?)),
    }
}

/// Adds an entry with the first one's key and the join of the two values at the end of a list.
#[cycle(join)]
fn push_joined(
    values: &AnyL,
    alloc: Global,
    list: &mut List<Entry>,
    a: &Entry,
    b: &Entry,
) -> Result<(), AllocError>
    requires left { IsValueOf (domain_of_any values.now) a.now.value }
    requires right { IsValueOf (domain_of_any values.now) b.now.value }
    ensures { OnOk result (pairs_of list.new ≡ pairs_of list.old ++ (a.now.key, joined_of (domain_of_any values.now) a.now.value b.now.value) ∷ []) }
{
    let key = a.key.copy(alloc)?;
    let value = join_values(values, alloc, &a.value, &b.value)?;
    list.push(Entry { key, value })
}

/// The join of two maps, in one pass over both.
#[cycle(join)]
fn join_entries(
    values: &AnyL,
    alloc: Global,
    a: &[Entry],
    b: &[Entry],
) -> Result<List<Entry>, AllocError>
    requires left { IsMap elem_cmp (IsValueOf (domain_of_any values.now)) (least_of (domain_of_any values.now)) (pairs_of a.now) }
    requires right { IsMap elem_cmp (IsValueOf (domain_of_any values.now)) (least_of (domain_of_any values.now)) (pairs_of b.now) }
    ensures { IfOk result (λ list. list ≡ entries_of (map_join (joined_of (domain_of_any values.now)) (pairs_of a.now) (pairs_of b.now))) }
{
    let mut list = List::new(alloc);
    let mut left = a;
    let mut right = b;
    while let (Some((x, xs)), Some((y, ys))) = (left.split_first(), right.split_first()) {
        match x.key.cmp(&y.key) {
            Ordering::Less => {
                push_copy(alloc, &mut list, x)?;
                left = xs;
            }
            Ordering::Equal => {
                push_joined(values, alloc, &mut list, x, y)?;
                left = xs;
                right = ys;
            }
            Ordering::Greater => {
                push_copy(alloc, &mut list, y)?;
                right = ys;
            }
        }
    }
    push_copies(alloc, &mut list, left)?;
    push_copies(alloc, &mut list, right)?;
    Ok(list)
}

/// The least value of the lattice.
pub(crate) fn least_value(lattice: &AnyL, alloc: Global) -> Result<Value, AllocError>
    ensures { IfOk result (λ value. value ≡ least_of (domain_of_any lattice.now)) }
{
    match lattice {
        AnyL::May(_) => Ok(Value::Set(List::new(alloc))),
        AnyL::Must(_) => Ok(Value::Unreached),
        AnyL::Flat(_) => Ok(Value::Bottom),
        AnyL::Map(_, _) => Ok(Value::Map(List::new(alloc))),
        AnyL::Pair(left, right) => {
            let first = least_value(left.get(), alloc)?;
            let second = least_value(right.get(), alloc)?;
            Ok(Value::Pair(Boxed::new(alloc, first)?, Boxed::new(alloc, second)?))
        }
        AnyL::Table(table) => Ok(Value::Item(table.least().duplicate()?)),
    }
}
