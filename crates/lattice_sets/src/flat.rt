//! Single elements.
use flow_term::Element;
use lattice_base::Lattice;
use std::alloc::{AllocError, Global};
use std::marker::PhantomData;

/// No element yet, one element, or more than one.
#[derive(Debug, Drop)]
pub enum FlatV<E> {
    /// No element yet.
    Bottom,
    /// This one element.
    Flat(E),
    /// More than one element.
    Top,
}

/// The lattice of single elements: they stand side by side between bottom and top, and the join of two different ones
/// is top.
///
/// ```text
///         top
///       /  |  \
///      a   b   c
///       \  |  /
///       bottom
/// ```
#[derive(Drop)]
pub struct FlatL<E> {
    of: PhantomData<E>,
}

impl<E: Element> FlatL<E> {
    /// The lattice of single elements of `E`.
    pub fn new() -> FlatL<E> {
        FlatL { of: PhantomData }
    }
}

impl<E: Element> Lattice for FlatL<E> {
    ghost use Rattle.std.specs.Prelude.{⊤};
    ghost use Rattle.std.specs.Ordering.{eq_by_cmp};
    ghost use Rattle.lattice_sets.specs.declared.flat.FlatV.TheVariants.{Bottom};
    ghost use Rattle.lattice_sets.specs.Flat.{IsBelowFlat, flat_join};
    ghost use Rattle.lattice_sets.specs.FlatLaws.{flat_laws, flat_order};

    type V = FlatV<E>;

    ghost valid = { λ _ _. ⊤ };

    ghost least = { λ _. Bottom };

    ghost joined = { λ _ a b. flat_join (eq_by_cmp E.cmp) a b };

    ghost below = { λ _ a b. IsBelowFlat a b };

    fn bottom(&self, alloc: Global) -> Result<FlatV<E>, AllocError> {
        Ok(FlatV::Bottom)
    }

    fn join(&self, alloc: Global, a: &FlatV<E>, b: &FlatV<E>) -> Result<FlatV<E>, AllocError> {
        match (a, b) {
            (FlatV::Bottom, value) | (value, FlatV::Bottom) => self.copy(alloc, value),
            (FlatV::Flat(x), FlatV::Flat(y)) if x.cmp(y).is_eq() => self.copy(alloc, a),
            _ => Ok(FlatV::Top),
        }
    }

    fn leq(&self, a: &FlatV<E>, b: &FlatV<E>) -> bool {
        match (a, b) {
            (FlatV::Bottom, _) | (_, FlatV::Top) => true,
            (FlatV::Flat(x), FlatV::Flat(y)) => x.cmp(y).is_eq(),
            _ => false,
        }
    }

    fn equal(&self, a: &FlatV<E>, b: &FlatV<E>) -> bool {
        match (a, b) {
            (FlatV::Bottom, FlatV::Bottom) | (FlatV::Top, FlatV::Top) => true,
            (FlatV::Flat(x), FlatV::Flat(y)) => x.cmp(y).is_eq(),
            _ => false,
        }
    }

    fn copy(&self, alloc: Global, a: &FlatV<E>) -> Result<FlatV<E>, AllocError> {
        match a {
            FlatV::Bottom => Ok(FlatV::Bottom),
            FlatV::Flat(x) => Ok(FlatV::Flat(x.copy(alloc)?)),
            FlatV::Top => Ok(FlatV::Top),
        }
    }

    ghost laws = { λ _. flat_laws E.cmp E.total E.exact };

    ghost order = { λ _. flat_order E.cmp E.total E.exact };
}
