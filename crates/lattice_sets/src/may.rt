//! Sets of what may hold.
use crate::operations::{includes, is_same, union};
use crate::sorted_set::SortedSet;
use flow_term::Element;
use lattice_base::Lattice;
use std::alloc::{AllocError, Global};
use std::marker::PhantomData;

/// The lattice of sets in which more items are above fewer: the order is inclusion, and the join is the union.
///
/// ```text
///        {a, b}
///       /      \
///     {a}      {b}
///       \      /
///          {}
/// ```
#[derive(Drop)]
pub struct MayL<E> {
    of: PhantomData<E>,
}

impl<E: Element> MayL<E> {
    /// The lattice of sets of `E`, ordered by inclusion.
    pub fn new() -> MayL<E> {
        MayL { of: PhantomData }
    }
}

impl<E: Element> Lattice for MayL<E> {
    ghost use Rattle.std.specs.Prelude.{[]};
    ghost use Rattle.std.specs.List.Sorted.{IsStrictlySortedBy};
    ghost use Rattle.lattice_sets.specs.Sets.{Includes, union_of};
    ghost use Rattle.lattice_sets.specs.MayLaws.{may_laws, may_order};

    type V = SortedSet<E>;

    ghost valid = { λ _ a. IsStrictlySortedBy E.cmp a };

    ghost least = { λ _. [] };

    ghost joined = { λ _ a b. union_of E.cmp a b };

    ghost below = { λ _ a b. Includes b a };

    fn bottom(&self, alloc: Global) -> Result<SortedSet<E>, AllocError> {
        Ok(SortedSet::new(alloc))
    }

    fn join(
        &self,
        alloc: Global,
        a: &SortedSet<E>,
        b: &SortedSet<E>,
    ) -> Result<SortedSet<E>, AllocError> {
        let items = union(alloc, a.items(), b.items())?;
        Ok(SortedSet::from_rising(items))
    }

    fn leq(&self, a: &SortedSet<E>, b: &SortedSet<E>) -> bool {
        includes(b.items(), a.items())
    }

    fn equal(&self, a: &SortedSet<E>, b: &SortedSet<E>) -> bool {
        is_same(a.items(), b.items())
    }

    fn copy(&self, alloc: Global, a: &SortedSet<E>) -> Result<SortedSet<E>, AllocError> {
        a.duplicate(alloc)
    }

    ghost laws = { λ _. may_laws E.cmp E.total E.exact };

    ghost order = { λ _. may_order E.cmp E.total E.exact };
}
