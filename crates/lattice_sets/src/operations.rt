//! Operations on sets that are given as slices whose items rise strictly.
ghost use Rattle.std.specs.Prelude.{◌≡◌, ◌++◌, ◌∷◌, [], ◌↔◌, Contains, IsTrue, IfOk, OnOk, if◌then◌else◌};
ghost use Rattle.std.specs.List.Sorted.{IsStrictlySortedBy};
ghost use Rattle.lattice_sets.specs.Sets.{Includes, difference_of, intersection_of, IsUnion, IsIntersection, IsDifference, IsPlace};

use flow_term::{Element, List};
use std::alloc::{AllocError, Global};
use std::cmp::Ordering;

/// Adds a copy of an item at the end of a list.
fn push_copy<E: Element>(alloc: Global, list: &mut List<E>, item: &E) -> Result<(), AllocError>
    ensures { OnOk result (list.new ≡ list.old ++ item.now ∷ []) }
{
    list.push(item.copy(alloc)?)
}

/// Adds copies of the items at the end of a list.
pub(crate) fn push_copies<E: Element>(
    alloc: Global,
    list: &mut List<E>,
    items: &[E],
) -> Result<(), AllocError>
    ensures { OnOk result (list.new ≡ list.old ++ items.now) }
{
    for item in items {
        push_copy(alloc, list, item)?;
    }
    Ok(())
}

/// The items of either set, in one pass over both.
pub fn union<E: Element>(alloc: Global, a: &[E], b: &[E]) -> Result<List<E>, AllocError>
    requires left { IsStrictlySortedBy E.cmp a.now }
    requires right { IsStrictlySortedBy E.cmp b.now }
    ensures { IfOk result (IsUnion E.cmp a.now b.now) }
{
    let mut list = List::new(alloc);
    let mut left = a;
    let mut right = b;
    while let (Some((x, xs)), Some((y, ys))) = (left.split_first(), right.split_first()) {
        match x.cmp(y) {
            Ordering::Less => {
                push_copy(alloc, &mut list, x)?;
                left = xs;
            }
            Ordering::Equal => {
                push_copy(alloc, &mut list, x)?;
                left = xs;
                right = ys;
            }
            Ordering::Greater => {
                push_copy(alloc, &mut list, y)?;
                right = ys;
            }
        }
    }
    push_copies(alloc, &mut list, left)?;
    push_copies(alloc, &mut list, right)?;
    Ok(list)
}

/// Adds a copy of an item at the end of a list, if it is wanted.
fn push_if<E: Element>(
    alloc: Global,
    list: &mut List<E>,
    item: &E,
    wanted: bool,
) -> Result<(), AllocError>
    ensures { OnOk result (list.new ≡ list.old ++ (if wanted then item.now ∷ [] else [])) }
{
    if wanted {
        push_copy(alloc, list, item)?;
    }
    Ok(())
}

/// The items of the first set that the second has, or, where `held` is false, those that it lacks, in one pass over both.
fn keep<E: Element>(alloc: Global, a: &[E], b: &[E], held: bool) -> Result<List<E>, AllocError>
    requires left { IsStrictlySortedBy E.cmp a.now }
    requires right { IsStrictlySortedBy E.cmp b.now }
    ensures { IfOk result (λ list. list ≡ (if held then intersection_of E.cmp a.now b.now else difference_of E.cmp a.now b.now)) }
{
    let mut list = List::new(alloc);
    let mut left = a;
    let mut right = b;
    while let (Some((x, xs)), Some((y, ys))) = (left.split_first(), right.split_first()) {
        match x.cmp(y) {
            Ordering::Less => {
                push_if(alloc, &mut list, x, !held)?;
                left = xs;
            }
            Ordering::Equal => {
                push_if(alloc, &mut list, x, held)?;
                left = xs;
                right = ys;
            }
            Ordering::Greater => right = ys,
        }
    }
    if held {
        return Ok(list);
    }
    push_copies(alloc, &mut list, left)?;
    Ok(list)
}

/// The items that both sets have, in one pass over both.
pub fn inter<E: Element>(alloc: Global, a: &[E], b: &[E]) -> Result<List<E>, AllocError>
    requires left { IsStrictlySortedBy E.cmp a.now }
    requires right { IsStrictlySortedBy E.cmp b.now }
    ensures { IfOk result (IsIntersection E.cmp a.now b.now) }
{
    keep(alloc, a, b, true)
}

/// The items of the first set that the second lacks, in one pass over both.
pub fn minus<E: Element>(alloc: Global, a: &[E], b: &[E]) -> Result<List<E>, AllocError>
    requires left { IsStrictlySortedBy E.cmp a.now }
    requires right { IsStrictlySortedBy E.cmp b.now }
    ensures { IfOk result (IsDifference E.cmp a.now b.now) }
{
    keep(alloc, a, b, false)
}

/// Whether each item of `b` is in `a`. It stops at the first that isn't, and takes no memory.
pub fn includes<E: Element>(a: &[E], b: &[E]) -> bool
    requires left { IsStrictlySortedBy E.cmp a.now }
    requires right { IsStrictlySortedBy E.cmp b.now }
    ensures { IsTrue result ↔ Includes a.now b.now }
{
    let mut set = a;
    let mut items = b;
    while let Some((y, ys)) = items.split_first() {
        let Some((x, xs)) = set.split_first() else {
            return false;
        };
        match x.cmp(y) {
            Ordering::Less => set = xs,
            Ordering::Equal => {
                set = xs;
                items = ys;
            }
            Ordering::Greater => return false,
        }
    }
    true
}

/// Whether the item is in the set, by binary search.
pub fn contains<E: Element>(set: &[E], item: &E) -> bool
    requires { IsStrictlySortedBy E.cmp set.now }
    ensures { IsTrue result ↔ Contains set.now item.now }
{
    place_of(set, item).is_ok()
}

/// Where the item is, or where it is to be inserted, by binary search.
pub(crate) fn place_of<E: Element>(set: &[E], item: &E) -> Result<usize, usize>
    requires { IsStrictlySortedBy E.cmp set.now }
    ensures { IsPlace E.cmp set.now item.now result }
{
    set.binary_search(item)
}

/// Whether the two hold the same items.
pub(crate) fn is_same<E: Element>(a: &[E], b: &[E]) -> bool
    ensures { IsTrue result ↔ (a.now ≡ b.now) }
{
    a == b
}
