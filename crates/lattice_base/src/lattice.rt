//! What a lattice of values is.
ghost use Rattle.std.specs.Prelude.{◌≡◌, ◌↔◌, IsTrue, IfOk};
ghost use Rattle.lattice_base.specs.Laws.{IsJoinOrder, JoinLaws, OrderLaw};

use std::alloc::{AllocError, Global};

/// An order on values in which any two have a join, their least upper bound, and which has a least value, bottom.
///
/// The value of this type says which lattice it is, as the length of a vector type would; the values of the lattice are
/// of type `V`. It speaks of those that are valid for it, and each call that takes a value requires a valid one.
///
/// # Laws
///
/// For valid values `a`, `b` and `c`, proved for each implementation:
///
/// - bottom is valid, and so is the join of `a` and `b`;
/// - join is idempotent: `join(a, a) = a`;
/// - join is commutative: `join(a, b) = join(b, a)`;
/// - join is associative: `join(join(a, b), c) = join(a, join(b, c))`;
/// - bottom is neutral: `join(bottom, a) = a`;
/// - `a` is below `b` exactly where `join(a, b) = b`.
///
/// Not a subtrait of `PartialOrd`: whether one value is below another may depend on the lattice, and values that are
/// not valid have no place in the order.
pub trait Lattice {
    /// The values, and others of their type that are not valid.
    type V: Drop;

    // Which values are valid.
    ghost valid: { Self → Self.V → Type 0 };

    // The least value.
    ghost least: { Self → Self.V };

    // The join of two values.
    ghost joined: { Self → Self.V → Self.V → Self.V };

    // Whether the first value is below the second, or equals it.
    ghost below: { Self → Self.V → Self.V → Type 0 };

    /// The least value. Takes memory where a value holds a collection.
    fn bottom(&self, alloc: Global) -> Result<Self::V, AllocError>
        ensures { IfOk result (λ v. v ≡ least self.now) };

    /// The join of `a` and `b`: the least value that both are below.
    fn join(&self, alloc: Global, a: &Self::V, b: &Self::V) -> Result<Self::V, AllocError>
        requires left { valid self.now a.now }
        requires right { valid self.now b.now }
        ensures { IfOk result (λ v. v ≡ joined self.now a.now b.now) };

    /// Whether `a` is below `b` or equals it: exactly where the join of the two equals `b`. Takes no memory.
    fn leq(&self, a: &Self::V, b: &Self::V) -> bool
        requires left { valid self.now a.now }
        requires right { valid self.now b.now }
        ensures { IsTrue result ↔ (joined self.now a.now b.now ≡ b.now) };

    /// Whether the two are the same value. Takes no memory.
    fn equal(&self, a: &Self::V, b: &Self::V) -> bool
        requires left { valid self.now a.now }
        requires right { valid self.now b.now }
        ensures { IsTrue result ↔ (a.now ≡ b.now) };

    /// A value that equals `a`.
    fn copy(&self, alloc: Global, a: &Self::V) -> Result<Self::V, AllocError>
        requires { valid self.now a.now }
        ensures { IfOk result (λ v. v ≡ a.now) };

    ghost laws: { (l : Self) → JoinLaws (valid l) (least l) (joined l) };

    ghost order: { (l : Self) → OrderLaw (valid l) (joined l) (below l) };
}

/// What follows from the laws, for every lattice: being below is a partial order on the valid values, bottom is below
/// each, and the join of two is their least upper bound.
pub fn below_is_an_order<L: Lattice>(_lattice: &L)
    ensures { IsJoinOrder (L.valid _lattice.now) (L.least _lattice.now) (L.joined _lattice.now) (L.below _lattice.now) }
{}
