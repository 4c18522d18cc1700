//! The typing of expressions in two directions: what is inferred of their types and what is expected of them; and the laws that each expression
//! of a specification without faults has one type, and which it is.
#![tactic(auto)]

ghost use Rattle.expr_typing.specs.Kept.{TypesAreKept, TypesAreUnique, TypesExist};
ghost use Rattle.expr_typing.specs.Listing.{FaultlessExpressionsHaveTypes, TypesAreInOrder};

mod expected;
mod inferred;
mod shape;
mod types;

pub use expected::{
    Expected, chosen_sort, expected_element, expected_first, expected_flat, expected_key,
    expected_left, expected_map, expected_right, expected_same, expected_second, expected_source,
    expected_updated_key, expected_updated_value, expected_value, int, known_lattice, known_sort,
    same_type_as, truth, unconstrained,
};
pub use inferred::{
    Inferred, always_inferred, first_of, flat_sort, inferred_element, inferred_lattice, key_sort,
    only, pair_inferred, second_of, set_sort, value_of,
};
pub use shape::{Shape, is_in};
pub use types::{is_same_lattice, is_same_sort, is_same_type};

/// All expressions of a specification without faults have types.
#[tactic(auto, using(crate::proofs::Kept::types_exist))]
pub fn types_exist()
    ensures { TypesExist }
{}

/// A specification without faults has one list of types at most: each expression has one type only.
#[tactic(auto, using(crate::proofs::One::types_unique))]
pub fn types_are_unique()
    ensures { TypesAreUnique }
{}

/// Where it is merely true that types are those of a specification without faults, they are: so a value that keeps the specification and its types,
/// as `TypedSpec`, has to keep no more than the mere truth, and whoever needs the fact itself has it by this law.
#[tactic(auto, using(crate::proofs::Kept::types_kept))]
pub fn types_are_kept()
    ensures { TypesAreKept }
{}

/// In a specification without faults, whose expressions are listed with the types that are expected or inferred of them, these are
/// the types of all its expressions.
pub fn faultless_expressions_have_types()
    ensures { FaultlessExpressionsHaveTypes }
{}

/// Types are those of all expressions of a specification exactly where they are as many as its expressions, and each is one that the expression
/// with its number has where it stands: in the scope there, and with what is expected of its type there.
pub fn types_are_in_order()
    ensures { TypesAreInOrder }
{}
