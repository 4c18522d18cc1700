//! The orders, by recursion on the lattice. Nothing here takes memory.
ghost use Rattle.std.specs.Prelude.{◌≡◌, ◌↔◌, IsTrue};
ghost use Rattle.flow_term.specs.Elements.{elem_cmp};
ghost use Rattle.lattice_sets.specs.Maps.{IsMap};
ghost use Rattle.value_domains.specs.Domains.{IsValueOf, least_of, joined_of};
ghost use Rattle.value_domains.specs.Values.{map_join, pairs_of};
ghost use Rattle.lattice_any.specs.Types.{domain_of_any};

use crate::any::AnyL;
use crate::parts::{elems, entries, includes, is_below_flat, is_below_must, item, parts};
use flow_term::{Entry, Value};
use std::cmp::Ordering;

/// Whether `a` is below `b` or equals it.
#[cycle(order)]
pub(crate) fn is_below(lattice: &AnyL, a: &Value, b: &Value) -> bool
    requires left { IsValueOf (domain_of_any lattice.now) a.now }
    requires right { IsValueOf (domain_of_any lattice.now) b.now }
    ensures { IsTrue result ↔ (joined_of (domain_of_any lattice.now) a.now b.now ≡ b.now) }
{
    match lattice {
        AnyL::May(_) => includes(elems(b), elems(a)),
        AnyL::Must(_) => is_below_must(a, b),
        AnyL::Flat(_) => is_below_flat(a, b),
        AnyL::Map(_, values) => are_below(values.get(), entries(a), entries(b)),
        AnyL::Pair(left, right) => {
            let (a_left, a_right) = parts(a);
            let (b_left, b_right) = parts(b);
            is_below(left.get(), a_left, b_left) && is_below(right.get(), a_right, b_right)
        }
        AnyL::Table(table) => table.is_below(item(a), item(b)),
    }
}

/// Whether the first map is below the second. It stops at the first key that decides.
#[cycle(order)]
fn are_below(values: &AnyL, a: &[Entry], b: &[Entry]) -> bool
    requires left { IsMap elem_cmp (IsValueOf (domain_of_any values.now)) (least_of (domain_of_any values.now)) (pairs_of a.now) }
    requires right { IsMap elem_cmp (IsValueOf (domain_of_any values.now)) (least_of (domain_of_any values.now)) (pairs_of b.now) }
    ensures { IsTrue result ↔ (map_join (joined_of (domain_of_any values.now)) (pairs_of a.now) (pairs_of b.now) ≡ pairs_of b.now) }
{
    let mut left = a;
    let mut right = b;
    while let Some((x, xs)) = left.split_first() {
        let Some((y, ys)) = right.split_first() else {
            return false;
        };
        match x.key.cmp(&y.key) {
            Ordering::Less => return false,
            Ordering::Equal => {
                if !is_below(values, &x.value, &y.value) {
                    return false;
                }
                left = xs;
                right = ys;
            }
            Ordering::Greater => right = ys,
        }
    }
    true
}
