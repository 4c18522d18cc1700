//! Sets of what must hold.
use crate::operations::{includes, inter, is_same};
use crate::sorted_set::SortedSet;
use flow_term::Element;
use lattice_base::Lattice;
use std::alloc::{AllocError, Global};
use std::marker::PhantomData;

/// What must hold where it is reached, or that it is not reached.
#[derive(Debug, Drop)]
pub enum MustV<E: Element> {
    /// It is not reached.
    Unreached,
    /// It is reached, and these items must hold there.
    Set(SortedSet<E>),
}

/// The lattice of sets in which fewer items are above more: the order is inclusion turned round, and the join is the
/// intersection. Below all sets is `Unreached`, which leaves the other value of a join as it is.
///
/// ```text
///          {}
///       /      \
///     {a}      {b}
///       \      /
///        {a, b}
///          |
///       unreached
/// ```
#[derive(Drop)]
pub struct MustL<E> {
    of: PhantomData<E>,
}

impl<E: Element> MustL<E> {
    /// The lattice of sets of `E` and what is not reached.
    pub fn new() -> MustL<E> {
        MustL { of: PhantomData }
    }
}

impl<E: Element> Lattice for MustL<E> {
    ghost use Rattle.lattice_sets.specs.declared.must.MustV.TheVariants.{Unreached};
    ghost use Rattle.lattice_sets.specs.Must.{IsBelowMust, IsMust, must_join};
    ghost use Rattle.lattice_sets.specs.MustLaws.{must_laws, must_order};

    type V = MustV<E>;

    ghost valid = { λ _ a. IsMust E.cmp a };

    ghost least = { λ _. Unreached };

    ghost joined = { λ _ a b. must_join E.cmp a b };

    ghost below = { λ _ a b. IsBelowMust a b };

    fn bottom(&self, alloc: Global) -> Result<MustV<E>, AllocError> {
        Ok(MustV::Unreached)
    }

    fn join(&self, alloc: Global, a: &MustV<E>, b: &MustV<E>) -> Result<MustV<E>, AllocError> {
        match (a, b) {
            (MustV::Unreached, value) | (value, MustV::Unreached) => self.copy(alloc, value),
            (MustV::Set(x), MustV::Set(y)) => {
                let items = inter(alloc, x.items(), y.items())?;
                Ok(MustV::Set(SortedSet::from_rising(items)))
            }
        }
    }

    fn leq(&self, a: &MustV<E>, b: &MustV<E>) -> bool {
        match (a, b) {
            (MustV::Unreached, _) => true,
            (MustV::Set(_), MustV::Unreached) => false,
            (MustV::Set(x), MustV::Set(y)) => includes(x.items(), y.items()),
        }
    }

    fn equal(&self, a: &MustV<E>, b: &MustV<E>) -> bool {
        match (a, b) {
            (MustV::Unreached, MustV::Unreached) => true,
            (MustV::Set(x), MustV::Set(y)) => is_same(x.items(), y.items()),
            _ => false,
        }
    }

    fn copy(&self, alloc: Global, a: &MustV<E>) -> Result<MustV<E>, AllocError> {
        match a {
            MustV::Unreached => Ok(MustV::Unreached),
            MustV::Set(x) => Ok(MustV::Set(x.duplicate(alloc)?)),
        }
    }

    ghost laws = { λ _. must_laws E.cmp E.total E.exact };

    ghost order = { λ _. must_order E.cmp E.total E.exact };
}
