//! Maps of values of a lattice.
use crate::map::MapV;
use crate::map_merge::{copy_entries, is_below, is_same_map, join_entries};
use flow_term::Element;
use lattice_base::Lattice;
use std::alloc::{AllocError, Global};
use std::marker::PhantomData;

/// The lattice of maps to the values of a lattice, whose order and join go key by key. An absent key stands for
/// bottom, so a valid map keeps no bottom.
///
/// ```text
///        [a |-> 1, b |-> 1]
///          /            \
///     [a |-> 1]      [b |-> 1]
///          \            /
///               []
/// ```
#[derive(Drop)]
pub struct MapL<K, L> {
    values: L,
    of: PhantomData<K>,
}

impl<K: Element, L: Lattice> MapL<K, L> {
    ghost use Rattle.std.specs.Prelude.{◌≡◌};

    /// The maps to values of `values`.
    pub fn new(values: L) -> MapL<K, L>
        ensures { result.values ≡ values }
    {
        MapL {
            values,
            of: PhantomData,
        }
    }
}

impl<K: Element, L: Lattice> Lattice for MapL<K, L> {
    ghost use Rattle.std.specs.Prelude.{[]};
    ghost use Rattle.lattice_sets.specs.Maps.{IsBelowMap, IsMap, map_join};
    ghost use Rattle.lattice_sets.specs.MapLaws.{map_laws, map_order};

    type V = MapV<K, L::V>;

    ghost valid = { λ l m. IsMap K.cmp (L.valid l.values) (L.least l.values) m };

    ghost least = { λ _. [] };

    ghost joined = { λ l a b. map_join K.cmp (L.joined l.values) a b };

    ghost below = { λ l a b. IsBelowMap K.cmp (L.least l.values) (L.below l.values) a b };

    fn bottom(&self, alloc: Global) -> Result<MapV<K, L::V>, AllocError> {
        Ok(MapV::new(alloc))
    }

    fn join(
        &self,
        alloc: Global,
        a: &MapV<K, L::V>,
        b: &MapV<K, L::V>,
    ) -> Result<MapV<K, L::V>, AllocError> {
        let entries = join_entries(&self.values, alloc, a.entries(), b.entries())?;
        Ok(MapV::from_rising(entries))
    }

    fn leq(&self, a: &MapV<K, L::V>, b: &MapV<K, L::V>) -> bool {
        is_below(&self.values, a.entries(), b.entries())
    }

    fn equal(&self, a: &MapV<K, L::V>, b: &MapV<K, L::V>) -> bool {
        is_same_map(&self.values, a.entries(), b.entries())
    }

    fn copy(&self, alloc: Global, a: &MapV<K, L::V>) -> Result<MapV<K, L::V>, AllocError> {
        let entries = copy_entries(&self.values, alloc, a.entries())?;
        Ok(MapV::from_rising(entries))
    }

    ghost laws = { λ l. map_laws K.cmp K.total K.exact (L.valid l.values) (L.least l.values) (L.joined l.values) (L.laws l.values) };

    ghost order = { λ l. map_order K.cmp K.total K.exact (L.valid l.values) (L.least l.values) (L.joined l.values) (L.laws l.values) (L.below l.values) (L.order l.values) };
}
