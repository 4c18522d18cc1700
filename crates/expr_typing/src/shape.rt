//! Groups of types.
ghost use Rattle.std.specs.Prelude.{◌≡◌};
ghost use Rattle.flow_syntax.specs.Types.{typing_of, lattice_of, sort_of, has_shape, lattice_has as lattice_has_shape, sort_has as sort_has_shape};
ghost use Rattle.expr_typing.specs.Views.{shape_of};

use flow_syntax::{ElemSort, ExprType, LatticeType};

/// A group of types, of which an expression's is to be one.
#[derive(Clone, Copy, Debug, PartialEq, Eq)]
pub enum Shape {
    Anything,
    AnyElement,
    AnyLattice,
    AnySet,
    AnyMay,
    AnyMust,
    AnyFlat,
    AnyMap,
    AnyPair,
}

/// Whether a type is in a group.
pub fn is_in(shape: Shape, typing: &ExprType) -> bool
    ensures { result ≡ has_shape (shape_of shape) (typing_of typing.now) }
{
    match typing {
        ExprType::Lattice(lattice) => is_lattice_in(shape, lattice),
        ExprType::Elem(sort) => is_sort_in(shape, sort),
        ExprType::Truth => shape == Shape::Anything,
    }
}

fn is_lattice_in(shape: Shape, lattice: &LatticeType) -> bool
    ensures { result ≡ lattice_has_shape (shape_of shape) (lattice_of lattice.now) }
{
    match shape {
        Shape::Anything | Shape::AnyLattice => true,
        Shape::AnyElement => false,
        Shape::AnySet => matches!(lattice, LatticeType::May(_) | LatticeType::Must(_)),
        Shape::AnyMay => matches!(lattice, LatticeType::May(_)),
        Shape::AnyMust => matches!(lattice, LatticeType::Must(_)),
        Shape::AnyFlat => matches!(lattice, LatticeType::Flat(_)),
        Shape::AnyMap => matches!(lattice, LatticeType::Map(_, _)),
        Shape::AnyPair => matches!(lattice, LatticeType::Pair(_, _)),
    }
}

fn is_sort_in(shape: Shape, sort: &ElemSort) -> bool
    ensures { result ≡ sort_has_shape (shape_of shape) (sort_of sort.now) }
{
    match shape {
        Shape::Anything | Shape::AnyElement => true,
        Shape::AnyPair => matches!(sort, ElemSort::Pair(_, _)),
        _ => false,
    }
}
