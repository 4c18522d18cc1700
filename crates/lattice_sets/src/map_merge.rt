//! Maps that are given as slices of entries whose keys rise strictly, under a lattice of the values.
ghost use Rattle.std.specs.Prelude.{◌≡◌, ◌++◌, ◌∷◌, [], ◌↔◌, IsTrue, IfOk, OnOk};
ghost use Rattle.lattice_sets.specs.Maps.{AllKept, IsMap, map_join};

use flow_term::{Element, List};
use lattice_base::Lattice;
use std::alloc::{AllocError, Global};
use std::cmp::Ordering;

/// Adds a copy of an entry at the end of a list.
fn push_entry<K: Element, L: Lattice>(
    values: &L,
    alloc: Global,
    list: &mut List<(K, L::V)>,
    entry: &(K, L::V),
) -> Result<(), AllocError>
    requires { L.valid values.now entry.now.1 }
    ensures { OnOk result (list.new ≡ list.old ++ entry.now ∷ []) }
{
    let key = entry.0.copy(alloc)?;
    let value = values.copy(alloc, &entry.1)?;
    list.push((key, value))
}

/// Adds an entry with the first one's key and the join of the two values at the end of a list.
fn push_joined<K: Element, L: Lattice>(
    values: &L,
    alloc: Global,
    list: &mut List<(K, L::V)>,
    a: &(K, L::V),
    b: &(K, L::V),
) -> Result<(), AllocError>
    requires left { L.valid values.now a.now.1 }
    requires right { L.valid values.now b.now.1 }
    ensures { OnOk result (list.new ≡ list.old ++ (a.now.0, L.joined values.now a.now.1 b.now.1) ∷ []) }
{
    let key = a.0.copy(alloc)?;
    let value = values.join(alloc, &a.1, &b.1)?;
    list.push((key, value))
}

/// Adds copies of the entries at the end of a list.
fn push_entries<K: Element, L: Lattice>(
    values: &L,
    alloc: Global,
    list: &mut List<(K, L::V)>,
    entries: &[(K, L::V)],
) -> Result<(), AllocError>
    requires { AllKept (L.valid values.now) (L.least values.now) entries.now }
    ensures { OnOk result (list.new ≡ list.old ++ entries.now) }
{
    for entry in entries {
        push_entry(values, alloc, list, entry)?;
    }
    Ok(())
}

/// The same entries in a new list.
pub(crate) fn copy_entries<K: Element, L: Lattice>(
    values: &L,
    alloc: Global,
    entries: &[(K, L::V)],
) -> Result<List<(K, L::V)>, AllocError>
    requires { AllKept (L.valid values.now) (L.least values.now) entries.now }
    ensures { IfOk result (λ list. list ≡ entries.now) }
{
    let mut list = List::new(alloc);
    push_entries(values, alloc, &mut list, entries)?;
    Ok(list)
}

/// The join of two maps, in one pass over both.
pub(crate) fn join_entries<K: Element, L: Lattice>(
    values: &L,
    alloc: Global,
    a: &[(K, L::V)],
    b: &[(K, L::V)],
) -> Result<List<(K, L::V)>, AllocError>
    requires left { IsMap K.cmp (L.valid values.now) (L.least values.now) a.now }
    requires right { IsMap K.cmp (L.valid values.now) (L.least values.now) b.now }
    ensures { IfOk result (λ list. list ≡ map_join K.cmp (L.joined values.now) a.now b.now) }
{
    let mut list = List::new(alloc);
    let mut left = a;
    let mut right = b;
    while let (Some((x, xs)), Some((y, ys))) = (left.split_first(), right.split_first()) {
        match x.0.cmp(&y.0) {
            Ordering::Less => {
                push_entry(values, alloc, &mut list, x)?;
                left = xs;
            }
            Ordering::Equal => {
                push_joined(values, alloc, &mut list, x, y)?;
                left = xs;
                right = ys;
            }
            Ordering::Greater => {
                push_entry(values, alloc, &mut list, y)?;
                right = ys;
            }
        }
    }
    push_entries(values, alloc, &mut list, left)?;
    push_entries(values, alloc, &mut list, right)?;
    Ok(list)
}

/// Whether the first map is below the second. It stops at the first key that decides.
pub(crate) fn is_below<K: Element, L: Lattice>(values: &L, a: &[(K, L::V)], b: &[(K, L::V)]) -> bool
    requires left { IsMap K.cmp (L.valid values.now) (L.least values.now) a.now }
    requires right { IsMap K.cmp (L.valid values.now) (L.least values.now) b.now }
    ensures { IsTrue result ↔ (map_join K.cmp (L.joined values.now) a.now b.now ≡ b.now) }
{
    let mut left = a;
    let mut right = b;
    while let Some((x, xs)) = left.split_first() {
        let Some((y, ys)) = right.split_first() else {
            return false;
        };
        match x.0.cmp(&y.0) {
            Ordering::Less => return false,
            Ordering::Equal => {
                if !values.leq(&x.1, &y.1) {
                    return false;
                }
                left = xs;
                right = ys;
            }
            Ordering::Greater => right = ys,
        }
    }
    true
}

/// Whether two entries have the same key and the same value.
fn is_same_entry<K: Element, L: Lattice>(values: &L, a: &(K, L::V), b: &(K, L::V)) -> bool
    requires left { L.valid values.now a.now.1 }
    requires right { L.valid values.now b.now.1 }
    ensures { IsTrue result ↔ (a.now ≡ b.now) }
{
    a.0 == b.0 && values.equal(&a.1, &b.1)
}

/// Whether the two have the same entries. It stops at the first that differ.
pub(crate) fn is_same_map<K: Element, L: Lattice>(
    values: &L,
    a: &[(K, L::V)],
    b: &[(K, L::V)],
) -> bool
    requires left { AllKept (L.valid values.now) (L.least values.now) a.now }
    requires right { AllKept (L.valid values.now) (L.least values.now) b.now }
    ensures { IsTrue result ↔ (a.now ≡ b.now) }
{
    let mut left = a;
    let mut right = b;
    while let (Some((x, xs)), Some((y, ys))) = (left.split_first(), right.split_first()) {
        if !is_same_entry(values, x, y) {
            return false;
        }
        left = xs;
        right = ys;
    }
    left.is_empty() && right.is_empty()
}
