//! What joins and writes mean. Each function does nothing; calling it gives its law to the caller's proof.
ghost use Rattle.std.specs.List.Sorted.{IsStrictlySortedBy};
ghost use Rattle.lattice_sets.specs.Maps.{IsPointwise, PutsKept};
ghost use Rattle.lattice_sets.specs.May.{JoinsByUnion};
ghost use Rattle.lattice_sets.specs.Must.{JoinsByIntersection};

use crate::map_lattice::MapL;
use crate::may::MayL;
use crate::must::MustL;
use flow_term::Element;
use lattice_base::Lattice;

/// The join of two may sets has exactly the items of either.
pub fn may_joins_are_unions<E: Element>(_lattice: &MayL<E>)
    ensures { JoinsByUnion E.cmp (⟦<MayL<E> as Lattice>⟧.joined _lattice.now) }
{}

/// The join of two must sets that are reached has exactly the items of both.
pub fn must_joins_are_intersections<E: Element>(_lattice: &MustL<E>)
    ensures { JoinsByIntersection E.cmp (⟦<MustL<E> as Lattice>⟧.joined _lattice.now) }
{}

/// The value of a join of two maps at a key is the join of their values there, where an absent key stands for bottom.
pub fn map_joins_are_pointwise<K: Element, L: Lattice>(_lattice: &MapL<K, L>)
    ensures { IsPointwise K.cmp (L.valid _lattice.now.values) (L.least _lattice.now.values) (L.joined _lattice.now.values) (⟦<MapL<K, L> as Lattice>⟧.joined _lattice.now) }
{}

/// A valid map stays valid when a valid value other than bottom is put into it.
pub fn puts_keep_maps_valid<K: Element, L: Lattice>(_lattice: &MapL<K, L>)
    ensures { PutsKept K.cmp (L.valid _lattice.now.values) (L.least _lattice.now.values) (⟦<MapL<K, L> as Lattice>⟧.valid _lattice.now) }
{}
