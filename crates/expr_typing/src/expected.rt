//! What is expected of the types of the parts of an expression.
ghost use Rattle.std.specs.Prelude.{◌≡◌, IfOk, if◌then◌else◌};
ghost use Rattle.flow_syntax.specs.Types.{typing_of, sort_of, lattice_of, element, lattice, has_shape};
ghost use Rattle.flow_syntax.specs.Expected.{known, unconstrained, known_sort, expected_element, source_shape, expected_source, expected_flat, expected_key, expected_value, expected_part, expected_first, expected_second, expected_same, expected_left, expected_map, same_type_as, expected_right, expected_updated_key, expected_updated_value};
ghost use Rattle.flow_syntax.specs.Occurrences.{expected_truth, expected_int, chosen_sort};
ghost use Rattle.expr_typing.specs.Views.{shape_of, sort_in, inferred_of, expected_of};

use crate::inferred::{Inferred, key_sort, set_sort, value_of};
use crate::shape::{Shape, is_in};
use flow_syntax::{ElemSort, ExprType, LatticeType};
use std::alloc::{AllocError, Global};

/// What is expected of the type of an expression.
#[derive(Debug, Drop)]
pub enum Expected {
    /// That it is this one.
    Known(ExprType),
    /// That it can be inferred and is in the group.
    InferredIn(Shape),
    /// That it is in the group; where it can't be inferred, neither can the whole of which the expression is a part.
    OwnChoice(Shape),
    /// That it is in the group if it can be inferred.
    IfInferredIn(Shape),
}

/// Nothing is expected.
pub fn unconstrained() -> Expected
    ensures { expected_of result ≡ unconstrained }
{
    Expected::IfInferredIn(Shape::Anything)
}

/// Truth.
pub fn truth() -> Expected
    ensures { expected_of result ≡ expected_truth }
{
    Expected::Known(ExprType::Truth)
}

/// A number.
pub fn int() -> Expected
    ensures { expected_of result ≡ expected_int }
{
    Expected::Known(ExprType::Elem(ElemSort::Int))
}

fn known_element(alloc: Global, sort: &ElemSort) -> Result<Expected, AllocError>
    ensures { IfOk result (λ w. expected_of w ≡ known (element (sort_of sort.now))) }
{
    Ok(Expected::Known(ExprType::Elem(sort.duplicate(alloc)?)))
}

/// A value of this lattice.
pub fn known_lattice(alloc: Global, of: &LatticeType) -> Result<Expected, AllocError>
    ensures { IfOk result (λ w. expected_of w ≡ known (lattice (lattice_of of.now))) }
{
    Ok(Expected::Known(ExprType::Lattice(of.duplicate(alloc)?)))
}

fn known_type(alloc: Global, typing: &ExprType) -> Result<Expected, AllocError>
    ensures { IfOk result (λ w. expected_of w ≡ known (typing_of typing.now)) }
{
    Ok(Expected::Known(typing.duplicate(alloc)?))
}

/// An element of this sort, if one is known.
pub fn known_sort(alloc: Global, sort: Option<&ElemSort>) -> Result<Expected, AllocError>
    ensures { IfOk result (λ w. expected_of w ≡ known_sort (sort_in sort.entry)) }
{
    match sort {
        Some(sort) => known_element(alloc, sort),
        None => Ok(unconstrained()),
    }
}

/// Of the elements of a set.
pub fn expected_element(alloc: Global, expected: &Expected) -> Result<Expected, AllocError>
    ensures { IfOk result (λ w. expected_of w ≡ expected_element (expected_of expected.now)) }
{
    match expected {
        Expected::Known(ExprType::Lattice(LatticeType::May(sort))) => known_element(alloc, sort),
        Expected::Known(ExprType::Lattice(LatticeType::Must(sort))) => known_element(alloc, sort),
        _ => Ok(unconstrained()),
    }
}

/// The group of the sets from which another is made.
fn source_shape(expected: &Expected) -> Shape
    ensures { shape_of result ≡ source_shape (expected_of expected.now) }
{
    match expected {
        Expected::Known(ExprType::Lattice(LatticeType::May(_))) => Shape::AnyMay,
        Expected::Known(ExprType::Lattice(LatticeType::Must(_))) => Shape::AnyMust,
        _ => Shape::AnySet,
    }
}

/// Of the set from which another is made.
pub fn expected_source(expected: &Expected) -> Expected
    ensures { expected_of result ≡ expected_source (expected_of expected.now) }
{
    Expected::InferredIn(source_shape(expected))
}

/// The sort of the elements of which a set is made, from what is inferred of the set that they are taken from: none where that isn't of the same kind.
pub fn chosen_sort<'a>(expected: &Expected, set: &'a Inferred) -> Option<&'a ElemSort>
    ensures { sort_in result ≡ chosen_sort (expected_of expected.now) (inferred_of set.now) }
{
    let Inferred::Is(typing) = set else {
        return None;
    };
    if is_in(source_shape(expected), typing) {
        set_sort(set)
    } else {
        None
    }
}

/// Of the element in a flat value.
pub fn expected_flat(alloc: Global, expected: &Expected) -> Result<Expected, AllocError>
    ensures { IfOk result (λ w. expected_of w ≡ expected_flat (expected_of expected.now)) }
{
    match expected {
        Expected::Known(ExprType::Lattice(LatticeType::Flat(sort))) => known_element(alloc, sort),
        _ => Ok(unconstrained()),
    }
}

/// Of the keys of a map.
pub fn expected_key(alloc: Global, expected: &Expected) -> Result<Expected, AllocError>
    ensures { IfOk result (λ w. expected_of w ≡ expected_key (expected_of expected.now)) }
{
    match expected {
        Expected::Known(ExprType::Lattice(LatticeType::Map(sort, _))) => known_element(alloc, sort),
        _ => Ok(unconstrained()),
    }
}

/// Of the values of a map.
pub fn expected_value(alloc: Global, expected: &Expected) -> Result<Expected, AllocError>
    ensures { IfOk result (λ w. expected_of w ≡ expected_value (expected_of expected.now)) }
{
    match expected {
        Expected::Known(ExprType::Lattice(LatticeType::Map(_, values))) => {
            known_lattice(alloc, values.get())
        }
        _ => Ok(unconstrained()),
    }
}

/// Of a part from which the type of the whole is inferred, where that isn't known.
fn expected_part(shape: Shape, expected: &Expected) -> Expected
    ensures { expected_of result ≡ expected_part (shape_of shape) (expected_of expected.now) }
{
    match expected {
        Expected::InferredIn(_) => Expected::OwnChoice(shape),
        Expected::OwnChoice(_) => Expected::OwnChoice(shape),
        _ => Expected::IfInferredIn(shape),
    }
}

/// Of the first part of a pair.
pub fn expected_first(alloc: Global, expected: &Expected) -> Result<Expected, AllocError>
    ensures { IfOk result (λ w. expected_of w ≡ expected_first (expected_of expected.now)) }
{
    match expected {
        Expected::Known(ExprType::Elem(ElemSort::Pair(first, _))) => {
            known_element(alloc, first.get())
        }
        Expected::Known(ExprType::Lattice(LatticeType::Pair(first, _))) => {
            known_lattice(alloc, first.get())
        }
        _ => Ok(expected_part(Shape::Anything, expected)),
    }
}

/// Of the second part of a pair.
pub fn expected_second(alloc: Global, expected: &Expected) -> Result<Expected, AllocError>
    ensures { IfOk result (λ w. expected_of w ≡ expected_second (expected_of expected.now)) }
{
    match expected {
        Expected::Known(ExprType::Elem(ElemSort::Pair(_, second))) => {
            known_element(alloc, second.get())
        }
        Expected::Known(ExprType::Lattice(LatticeType::Pair(_, second))) => {
            known_lattice(alloc, second.get())
        }
        _ => Ok(expected_part(Shape::Anything, expected)),
    }
}

/// This type where it is in the group.
fn known_in(alloc: Global, shape: Shape, typing: &ExprType) -> Result<Expected, AllocError>
    ensures { IfOk result (λ w. expected_of w ≡ (if has_shape (shape_of shape) (typing_of typing.now) then known (typing_of typing.now) else unconstrained)) }
{
    if is_in(shape, typing) {
        known_type(alloc, typing)
    } else {
        Ok(unconstrained())
    }
}

/// Of a part that has the type of the whole, which is in the group.
pub fn expected_same(
    alloc: Global,
    shape: Shape,
    expected: &Expected,
) -> Result<Expected, AllocError>
    ensures { IfOk result (λ w. expected_of w ≡ expected_same (shape_of shape) (expected_of expected.now)) }
{
    match expected {
        Expected::Known(typing) => known_in(alloc, shape, typing),
        _ => Ok(unconstrained()),
    }
}

/// Of the left operand of a form with types of this group.
pub fn expected_left(
    alloc: Global,
    shape: Shape,
    expected: &Expected,
) -> Result<Expected, AllocError>
    ensures { IfOk result (λ w. expected_of w ≡ expected_left (shape_of shape) (expected_of expected.now)) }
{
    match expected {
        Expected::Known(typing) => {
            if is_in(shape, typing) {
                known_type(alloc, typing)
            } else {
                Ok(Expected::IfInferredIn(shape))
            }
        }
        _ => Ok(expected_part(shape, expected)),
    }
}

/// Of the map that is updated.
pub fn expected_map(alloc: Global, expected: &Expected) -> Result<Expected, AllocError>
    ensures { IfOk result (λ w. expected_of w ≡ expected_map (expected_of expected.now)) }
{
    match expected {
        Expected::Known(_) => expected_left(alloc, Shape::AnyMap, expected),
        Expected::InferredIn(_) => Ok(Expected::InferredIn(Shape::AnyMap)),
        Expected::OwnChoice(_) => Ok(Expected::InferredIn(Shape::AnyMap)),
        Expected::IfInferredIn(_) => Ok(Expected::IfInferredIn(Shape::AnyMap)),
    }
}

/// Of what has the type of a left operand.
pub fn same_type_as(
    alloc: Global,
    shape: Shape,
    inferred: &Inferred,
) -> Result<Expected, AllocError>
    ensures { IfOk result (λ w. expected_of w ≡ same_type_as (shape_of shape) (inferred_of inferred.now)) }
{
    match inferred {
        Inferred::Is(typing) => known_in(alloc, shape, typing),
        _ => Ok(unconstrained()),
    }
}

/// Of a right operand.
pub fn expected_right(
    alloc: Global,
    shape: Shape,
    expected: &Expected,
    left: &Inferred,
) -> Result<Expected, AllocError>
    ensures { IfOk result (λ w. expected_of w ≡ expected_right (shape_of shape) (expected_of expected.now) (inferred_of left.now)) }
{
    match expected {
        Expected::Known(_) => expected_same(alloc, shape, expected),
        _ => same_type_as(alloc, shape, left),
    }
}

/// Of the key of an update.
pub fn expected_updated_key(
    alloc: Global,
    expected: &Expected,
    map: &Inferred,
) -> Result<Expected, AllocError>
    ensures { IfOk result (λ w. expected_of w ≡ expected_updated_key (expected_of expected.now) (inferred_of map.now)) }
{
    match expected {
        Expected::Known(_) => expected_key(alloc, expected),
        _ => known_sort(alloc, key_sort(map)),
    }
}

/// Of the new value of an update.
pub fn expected_updated_value(
    alloc: Global,
    expected: &Expected,
    map: &Inferred,
) -> Result<Expected, AllocError>
    ensures { IfOk result (λ w. expected_of w ≡ expected_updated_value (expected_of expected.now) (inferred_of map.now)) }
{
    match expected {
        Expected::Known(_) => expected_value(alloc, expected),
        _ => {
            let value = value_of(alloc, map)?;
            same_type_as(alloc, Shape::AnyLattice, &value)
        }
    }
}
