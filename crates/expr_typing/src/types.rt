//! Whether two types are the same.
ghost use Rattle.std.specs.Prelude.{◌≡◌, ◌↔◌, IsTrue};
ghost use Rattle.flow_syntax.specs.Types.{typing_of, lattice_of, sort_of};

use flow_syntax::{ElemSort, ExprType, LatticeType};

/// Whether two sorts are the same, wherever their names stand.
pub fn is_same_sort(a: &ElemSort, b: &ElemSort) -> bool
    ensures { IsTrue result ↔ (sort_of a.now ≡ sort_of b.now) }
{
    match a {
        ElemSort::Name => matches!(b, ElemSort::Name),
        ElemSort::Pos => matches!(b, ElemSort::Pos),
        ElemSort::Str => matches!(b, ElemSort::Str),
        ElemSort::Int => matches!(b, ElemSort::Int),
        ElemSort::Enum(x) => match b {
            ElemSort::Enum(y) => x.text == y.text,
            _ => false,
        },
        ElemSort::Pair(x, y) => match b {
            ElemSort::Pair(z, w) => is_same_sort(x.get(), z.get())
                && is_same_sort(y.get(), w.get()),
            _ => false,
        },
    }
}

/// Whether two lattices are the same, wherever their names stand.
pub fn is_same_lattice(a: &LatticeType, b: &LatticeType) -> bool
    ensures { IsTrue result ↔ (lattice_of a.now ≡ lattice_of b.now) }
{
    match a {
        LatticeType::May(x) => match b {
            LatticeType::May(y) => is_same_sort(x, y),
            _ => false,
        },
        LatticeType::Must(x) => match b {
            LatticeType::Must(y) => is_same_sort(x, y),
            _ => false,
        },
        LatticeType::Flat(x) => match b {
            LatticeType::Flat(y) => is_same_sort(x, y),
            _ => false,
        },
        LatticeType::Map(x, y) => match b {
            LatticeType::Map(z, w) => is_same_sort(x, z) && is_same_lattice(y.get(), w.get()),
            _ => false,
        },
        LatticeType::Pair(x, y) => match b {
            LatticeType::Pair(z, w) => is_same_lattice(x.get(), z.get())
                && is_same_lattice(y.get(), w.get()),
            _ => false,
        },
        LatticeType::Table(x) => match b {
            LatticeType::Table(y) => x.text == y.text,
            _ => false,
        },
    }
}

/// Whether two types are the same, wherever their names stand.
pub fn is_same_type(a: &ExprType, b: &ExprType) -> bool
    ensures { IsTrue result ↔ (typing_of a.now ≡ typing_of b.now) }
{
    match a {
        ExprType::Lattice(x) => match b {
            ExprType::Lattice(y) => is_same_lattice(x, y),
            _ => false,
        },
        ExprType::Elem(x) => match b {
            ExprType::Elem(y) => is_same_sort(x, y),
            _ => false,
        },
        ExprType::Truth => matches!(b, ExprType::Truth),
    }
}
