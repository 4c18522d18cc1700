//! Pairs of values.
use lattice_base::Lattice;
use std::alloc::{AllocError, Global};

/// A value of each of two lattices.
#[derive(Debug, Drop)]
pub struct PairV<V, W> {
    /// The value of the first lattice.
    pub left: V,
    /// The value of the second lattice.
    pub right: W,
}

/// The lattice of pairs, whose order and join go part by part.
///
/// ```text
///          (1, 1)
///         /      \
///     (1, 0)   (0, 1)
///         \      /
///          (0, 0)
/// ```
#[derive(Drop)]
pub struct PairL<A, B> {
    left: A,
    right: B,
}

impl<A: Lattice, B: Lattice> PairL<A, B> {
    ghost use Rattle.std.specs.Prelude.{◌≡◌};

    /// The pairs of a value of `left` and one of `right`.
    pub fn new(left: A, right: B) -> PairL<A, B>
        ensures left { result.left ≡ left }
        ensures right { result.right ≡ right }
    {
        PairL { left, right }
    }
}

impl<A: Lattice, B: Lattice> Lattice for PairL<A, B> {
    ghost use Rattle.lattice_sets.specs.Pairs.{IsPair, IsBelowPair, pair, pair_join};
    ghost use Rattle.lattice_sets.specs.PairLaws.{pair_laws, pair_order};

    type V = PairV<A::V, B::V>;

    ghost valid = { λ l a. IsPair (A.valid l.left) (B.valid l.right) a };

    ghost least = { λ l. pair (A.least l.left) (B.least l.right) };

    ghost joined = { λ l a b. pair_join (A.joined l.left) (B.joined l.right) a b };

    ghost below = { λ l a b. IsBelowPair (A.below l.left) (B.below l.right) a b };

    fn bottom(&self, alloc: Global) -> Result<PairV<A::V, B::V>, AllocError> {
        let left = self.left.bottom(alloc)?;
        let right = self.right.bottom(alloc)?;
        Ok(PairV { left, right })
    }

    fn join(
        &self,
        alloc: Global,
        a: &PairV<A::V, B::V>,
        b: &PairV<A::V, B::V>,
    ) -> Result<PairV<A::V, B::V>, AllocError> {
        let left = self.left.join(alloc, &a.left, &b.left)?;
        let right = self.right.join(alloc, &a.right, &b.right)?;
        Ok(PairV { left, right })
    }

    fn leq(&self, a: &PairV<A::V, B::V>, b: &PairV<A::V, B::V>) -> bool {
        self.left.leq(&a.left, &b.left) && self.right.leq(&a.right, &b.right)
    }

    fn equal(&self, a: &PairV<A::V, B::V>, b: &PairV<A::V, B::V>) -> bool {
        self.left.equal(&a.left, &b.left) && self.right.equal(&a.right, &b.right)
    }

    fn copy(&self, alloc: Global, a: &PairV<A::V, B::V>) -> Result<PairV<A::V, B::V>, AllocError> {
        let left = self.left.copy(alloc, &a.left)?;
        let right = self.right.copy(alloc, &a.right)?;
        Ok(PairV { left, right })
    }

    ghost laws = { λ l. pair_laws (A.valid l.left) (A.least l.left) (A.joined l.left) (A.laws l.left) (B.valid l.right) (B.least l.right) (B.joined l.right) (B.laws l.right) };

    ghost order = { λ l. pair_order (A.valid l.left) (A.least l.left) (A.joined l.left) (A.laws l.left) (B.valid l.right) (B.least l.right) (B.joined l.right) (B.laws l.right) (A.below l.left) (A.order l.left) (B.below l.right) (B.order l.right) };
}
