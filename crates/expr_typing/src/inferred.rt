//! What is inferred of the type of an expression, and what follows from it for the expression around it.
ghost use Rattle.std.specs.Prelude.{◌≡◌, IfOk};
ghost use Rattle.flow_syntax.specs.Types.{sort_of, lattice_of, element, lattice};
ghost use Rattle.flow_syntax.specs.Inferred.{is, first_of, second_of, value_of, set_sort, flat_sort, key_sort, pair_inferred, only, always_inferred};
ghost use Rattle.expr_typing.specs.Views.{shape_of, sort_in, inferred_of};

use crate::shape::{Shape, is_in};
use flow_syntax::{ElemSort, ExprType, LatticeType};
use flow_term::Boxed;
use std::alloc::{AllocError, Global};

/// What is inferred of the type of an expression by the expression itself.
#[derive(Debug, Drop)]
pub enum Inferred {
    /// It is this one.
    Is(ExprType),
    /// It can't be inferred.
    NotInferable,
    /// It follows from something with a fault.
    Faulty,
}

/// An element of this sort.
pub fn inferred_element(alloc: Global, sort: &ElemSort) -> Result<Inferred, AllocError>
    ensures { IfOk result (λ t. inferred_of t ≡ is (element (sort_of sort.now))) }
{
    Ok(Inferred::Is(ExprType::Elem(sort.duplicate(alloc)?)))
}

/// A value of this lattice.
pub fn inferred_lattice(alloc: Global, of: &LatticeType) -> Result<Inferred, AllocError>
    ensures { IfOk result (λ t. inferred_of t ≡ is (lattice (lattice_of of.now))) }
{
    Ok(Inferred::Is(ExprType::Lattice(of.duplicate(alloc)?)))
}

/// The first part of a pair.
pub fn first_of(alloc: Global, whole: &Inferred) -> Result<Inferred, AllocError>
    ensures { IfOk result (λ t. inferred_of t ≡ first_of (inferred_of whole.now)) }
{
    match whole {
        Inferred::Is(ExprType::Elem(ElemSort::Pair(first, _))) => inferred_element(
            alloc,
            first.get(),
        ),
        Inferred::Is(ExprType::Lattice(LatticeType::Pair(first, _))) => {
            inferred_lattice(alloc, first.get())
        }
        _ => Ok(Inferred::Faulty),
    }
}

/// The second part of a pair.
pub fn second_of(alloc: Global, whole: &Inferred) -> Result<Inferred, AllocError>
    ensures { IfOk result (λ t. inferred_of t ≡ second_of (inferred_of whole.now)) }
{
    match whole {
        Inferred::Is(ExprType::Elem(ElemSort::Pair(_, second))) => {
            inferred_element(alloc, second.get())
        }
        Inferred::Is(ExprType::Lattice(LatticeType::Pair(_, second))) => {
            inferred_lattice(alloc, second.get())
        }
        _ => Ok(Inferred::Faulty),
    }
}

/// A value of a map of this lattice.
fn inferred_values(alloc: Global, map: &LatticeType) -> Result<Inferred, AllocError>
    ensures { IfOk result (λ t. inferred_of t ≡ value_of (is (lattice (lattice_of map.now)))) }
{
    match map {
        LatticeType::Map(_, values) => inferred_lattice(alloc, values.get()),
        _ => Ok(Inferred::Faulty),
    }
}

/// A value of a map.
pub fn value_of(alloc: Global, map: &Inferred) -> Result<Inferred, AllocError>
    ensures { IfOk result (λ t. inferred_of t ≡ value_of (inferred_of map.now)) }
{
    match map {
        Inferred::Is(ExprType::Lattice(map)) => inferred_values(alloc, map),
        _ => Ok(Inferred::Faulty),
    }
}

/// The sort of the elements of a set.
pub fn set_sort(set: &Inferred) -> Option<&ElemSort>
    ensures { sort_in result ≡ set_sort (inferred_of set.now) }
{
    match set {
        Inferred::Is(ExprType::Lattice(LatticeType::May(sort))) => Some(sort),
        Inferred::Is(ExprType::Lattice(LatticeType::Must(sort))) => Some(sort),
        _ => None,
    }
}

/// The sort of a flat value.
pub fn flat_sort(flat: &Inferred) -> Option<&ElemSort>
    ensures { sort_in result ≡ flat_sort (inferred_of flat.now) }
{
    match flat {
        Inferred::Is(ExprType::Lattice(LatticeType::Flat(sort))) => Some(sort),
        _ => None,
    }
}

/// The sort of the keys of a map.
pub fn key_sort(map: &Inferred) -> Option<&ElemSort>
    ensures { sort_in result ≡ key_sort (inferred_of map.now) }
{
    match map {
        Inferred::Is(ExprType::Lattice(LatticeType::Map(sort, _))) => Some(sort),
        _ => None,
    }
}

/// A pair of these.
pub fn pair_inferred(alloc: Global, a: &Inferred, b: &Inferred) -> Result<Inferred, AllocError>
    ensures { IfOk result (λ t. inferred_of t ≡ pair_inferred (inferred_of a.now) (inferred_of b.now)) }
{
    match a {
        Inferred::Faulty => Ok(Inferred::Faulty),
        Inferred::Is(ExprType::Elem(first)) => match b {
            Inferred::Faulty => Ok(Inferred::Faulty),
            Inferred::Is(ExprType::Elem(second)) => {
                let first = Boxed::new(alloc, first.duplicate(alloc)?)?;
                let second = Boxed::new(alloc, second.duplicate(alloc)?)?;
                Ok(Inferred::Is(ExprType::Elem(ElemSort::Pair(first, second))))
            }
            _ => Ok(Inferred::NotInferable),
        },
        Inferred::Is(_) | Inferred::NotInferable => match b {
            Inferred::Faulty => Ok(Inferred::Faulty),
            _ => Ok(Inferred::NotInferable),
        },
    }
}

/// The type where it is in the group.
pub fn only(shape: Shape, inferred: Inferred) -> Inferred
    ensures { inferred_of result ≡ only (shape_of shape) (inferred_of inferred) }
{
    match inferred {
        Inferred::Is(typing) => {
            if is_in(shape, &typing) {
                Inferred::Is(typing)
            } else {
                Inferred::Faulty
            }
        }
        other => other,
    }
}

/// The type of a part that must be inferred.
pub fn always_inferred(inferred: Inferred) -> Inferred
    ensures { inferred_of result ≡ always_inferred (inferred_of inferred) }
{
    match inferred {
        Inferred::Is(typing) => Inferred::Is(typing),
        _ => Inferred::Faulty,
    }
}
