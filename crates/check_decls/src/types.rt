//! What is asked of the types of properties.
ghost use Rattle.std.specs.Prelude.{◌≡◌, nat_lt};
ghost use Rattle.flow_syntax.specs.DeclFaults.{has_int, has_inner_int, has_loose_int, sort_depth, type_depth};
ghost use Rattle.flow_syntax.specs.Types.{lattice_of, sort_of};

use flow_syntax::{ElemSort, LatticeType};

/// Whether an element sort has `int` in it.
fn has_int(sort: &ElemSort) -> bool
    ensures { result ≡ has_int (sort_of sort.now) }
{
    match sort {
        ElemSort::Int => true,
        ElemSort::Pair(a, b) => has_int(a.get()) || has_int(b.get()),
        _ => false,
    }
}

/// Whether an element sort has `int` in it, and isn't `int`.
fn has_inner_int(sort: &ElemSort) -> bool
    ensures { result ≡ has_inner_int (sort_of sort.now) }
{
    match sort {
        ElemSort::Int => false,
        _ => has_int(sort),
    }
}

/// Whether a type has `int` elsewhere than as the sort of a flat type.
pub fn has_loose_int(lattice: &LatticeType) -> bool
    ensures { result ≡ has_loose_int (lattice_of lattice.now) }
{
    match lattice {
        LatticeType::May(sort) => has_int(sort),
        LatticeType::Must(sort) => has_int(sort),
        LatticeType::Flat(sort) => has_inner_int(sort),
        LatticeType::Map(key, value) => has_int(key) || has_loose_int(value.get()),
        LatticeType::Pair(a, b) => has_loose_int(a.get()) || has_loose_int(b.get()),
        LatticeType::Table(_) => false,
    }
}

/// Whether an element sort is nested deeper than so many levels.
fn is_deeper_sort(sort: &ElemSort, levels: u8) -> bool
    ensures { result ≡ nat_lt levels (sort_depth (sort_of sort.now)) }
{
    match sort {
        ElemSort::Pair(a, b) => {
            levels == 0
                || is_deeper_sort(a.get(), levels - 1)
                || is_deeper_sort(b.get(), levels - 1)
        }
        _ => false,
    }
}

/// Whether a type is nested deeper than so many levels.
pub fn is_deeper(lattice: &LatticeType, levels: u8) -> bool
    ensures { result ≡ nat_lt levels (type_depth (lattice_of lattice.now)) }
{
    match lattice {
        LatticeType::May(sort) => levels == 0 || is_deeper_sort(sort, levels - 1),
        LatticeType::Must(sort) => levels == 0 || is_deeper_sort(sort, levels - 1),
        LatticeType::Flat(sort) => levels == 0 || is_deeper_sort(sort, levels - 1),
        LatticeType::Map(key, value) => {
            levels == 0 || is_deeper_sort(key, levels - 1) || is_deeper(value.get(), levels - 1)
        }
        LatticeType::Pair(a, b) => {
            levels == 0 || is_deeper(a.get(), levels - 1) || is_deeper(b.get(), levels - 1)
        }
        LatticeType::Table(_) => false,
    }
}
