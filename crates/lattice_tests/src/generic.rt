//! The generic lattices, at numbers.
ghost use Rattle.std.specs.Prelude.{◌≡◌, ℕ};
ghost use Rattle.lattice_sets.specs.declared.flat.FlatV.TheVariants.{Bottom};
ghost use Rattle.lattice_sets.specs.Must.{IsMust};

use crate::joins::join_of;
use crate::sets::set_of;
use flow_term::Element;
use lattice_base::Lattice;
use lattice_sets::{
    FlatL, FlatV, MapL, MapV, MayL, MustL, MustV, PairL, PairV, SortedSet, puts_keep_maps_valid,
};
use std::alloc::{AllocError, Global};
use std::test::Fail;

/// A set beside a number.
fn beside<E: Element>(set: SortedSet<E>, number: FlatV<u32>) -> PairV<SortedSet<E>, FlatV<u32>>
    ensures { (l : PairL (MayL E) (FlatL ℕ)) → ⟦<PairL<MayL<E>, FlatL<u32>> as Lattice>⟧.valid l result }
{
    let _rising = set.items();
    PairV {
        left: set,
        right: number,
    }
}

/// The join of two sets beside different numbers.
fn joined_pair(alloc: Global) -> Result<Option<PairV<SortedSet<u32>, FlatV<u32>>>, AllocError> {
    let a = beside(set_of(alloc, &[1])?, FlatV::Flat(1));
    let b = beside(set_of(alloc, &[2])?, FlatV::Flat(2));
    join_of(alloc, &PairL::new(MayL::new(), FlatL::new()), &a, &b)
}

#[test]
fn pairs_join_part_by_part(rt: HostRuntime) -> Result<(), Fail> {
    let pair = joined_pair(rt.alloc())?.ok_or("not above")?;
    assert_eq!(rt; pair.left.items(), [1, 2].as_slice());
    assert!(rt; matches!(pair.right, FlatV::Top));
    Ok(())
}

/// A set of what is reached.
fn reached<E: Element>(set: SortedSet<E>) -> MustV<E>
    ensures { IsMust E.cmp result }
{
    let _rising = set.items();
    MustV::Set(set)
}

/// The join of two sets of what is on every way.
fn joined_must(alloc: Global) -> Result<Option<MustV<u32>>, AllocError> {
    let a = reached(set_of(alloc, &[1, 2])?);
    let b = reached(set_of(alloc, &[2, 3])?);
    join_of(alloc, &MustL::new(), &a, &b)
}

#[test]
fn must_sets_join_by_intersection(rt: HostRuntime) -> Result<(), Fail> {
    let must = joined_must(rt.alloc())?.ok_or("not above")?;
    assert!(rt; matches!(&must, MustV::Set(set) if set.items() == [2].as_slice()));
    Ok(())
}

type Numbers = MapL<u32, FlatL<u32>>;

/// Puts a value other than bottom into a valid map.
fn put_flat(
    lattice: &Numbers,
    map: &mut MapV<u32, FlatV<u32>>,
    key: u32,
    value: FlatV<u32>,
) -> Result<(), AllocError>
    requires map { ⟦<MapL<u32, FlatL<u32>> as Lattice>⟧.valid lattice.now map.old }
    requires value { value ≡ Bottom → ⊥ }
    ensures { ⟦<MapL<u32, FlatL<u32>> as Lattice>⟧.valid lattice.now map.new }
{
    puts_keep_maps_valid(lattice);
    map.put(key, value)
}

/// The join of two maps with a common key.
fn joined_map(alloc: Global) -> Result<Option<MapV<u32, FlatV<u32>>>, AllocError> {
    let lattice = Numbers::new(FlatL::new());
    let mut a = lattice.bottom(alloc)?;
    put_flat(&lattice, &mut a, 7, FlatV::Flat(1))?;
    let mut b = lattice.bottom(alloc)?;
    put_flat(&lattice, &mut b, 9, FlatV::Flat(3))?;
    put_flat(&lattice, &mut b, 7, FlatV::Flat(2))?;
    join_of(alloc, &lattice, &a, &b)
}

/// Whether this one number is told.
fn is_number(value: Option<&FlatV<u32>>, number: u32) -> bool {
    match value {
        Some(FlatV::Flat(told)) => *told == number,
        _ => false,
    }
}

#[test]
fn maps_join_key_by_key(rt: HostRuntime) -> Result<(), Fail> {
    let map = joined_map(rt.alloc())?.ok_or("not above")?;
    assert!(rt; matches!(map.get(&7), Some(FlatV::Top)));
    assert!(rt; is_number(map.get(&9), 3));
    assert_eq!(rt; map.entries().len(), 2);
    Ok(())
}
